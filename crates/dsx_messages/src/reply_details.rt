//! What a response says after its transaction ID and code: read by the kind of response, and by
//! whether it accepts.

ghost use Rattle.std.specs.Prelude.{◌≡◌, ◌≢◌, ◌==◌, ℕ, ◌<◌, ◌^◌, Option, Some, None, IfSome, if◌then◌else◌};
ghost use Rattle.tlv24.specs.Tlv.{spelled};
ghost use Rattle.dsx_messages.specs.Code.{code_number};
ghost use Rattle.dsx_messages.specs.Spelling.{tlvs_in, tail_of};
ghost use Rattle.dsx_messages.specs.Told.{IsDetailSpelling};
ghost use Rattle.dsx_messages.specs.declared.kind.Kind.TheVariants.{Dsa, Dsc};
ghost use Rattle.dsx_messages.specs.declared.code.Code.{Code};
ghost use Rattle.dsx_messages.specs.declared.code.Code.TheVariants.{Okay};
ghost use Rattle.dsx_messages.specs.declared.reply.FlowId.TheVariants.{Reference, Sfid};
ghost use Rattle.dsx_messages.specs.declared.reply.Detail.{Detail};
ghost use Rattle.dsx_messages.specs.declared.reply.Detail.TheVariants.{Nothing, Given, Errored};

use crate::code::Code;
use crate::reply::{Detail, FlowId};
use crate::tlv_type::UPSTREAM_SERVICE_FLOW as FLOW;
use tlv24::subtype::{ERROR_CODE, ERRORED, ERRORED_PARAMETER, REFERENCE, SFID, SID};

/// Returns an accepted addition: the reference, the SFID and the SID of its flow, in this order.
fn parse_addition(tail: &[u8]) -> Option<(u16, u32, u16)>
    ensures spelled { IfSome result (λ n. tail.now ≡ tail_of Dsa Okay (Given (Some n.0) n.1 (Some n.2))) }
    ensures every { (reference sfid sid : ℕ) → reference < 2 ^ 16 → sfid < 2 ^ 32 → sid < 2 ^ 16
        → tail.now ≡ tail_of Dsa Okay (Given (Some reference) sfid (Some sid))
        → result ≡ Some (reference, sfid, sid) }
{
    match tail {
        [
            FLOW,
            14,
            REFERENCE,
            2,
            rh,
            rl,
            SFID,
            4,
            a,
            b,
            c,
            d,
            SID,
            2,
            sh,
            sl,
        ] => Some((
            u16::from_be_bytes([*rh, *rl]),
            u32::from_be_bytes([*a, *b, *c, *d]),
            u16::from_be_bytes([*sh, *sl]),
        )),
        _ => None,
    }
}

/// Returns an accepted change of a flow that has no SID: its SFID.
fn parse_change(tail: &[u8]) -> Option<u32>
    ensures spelled { IfSome result (λ sfid. tail.now ≡ tail_of Dsc Okay (Given None sfid None)) }
    ensures every { (sfid : ℕ) → sfid < 2 ^ 32 → tail.now ≡ tail_of Dsc Okay (Given None sfid None)
        → result ≡ Some sfid }
{
    match tail {
        [FLOW, 6, SFID, 4, a, b, c, d] => Some(u32::from_be_bytes([*a, *b, *c, *d])),
        _ => None,
    }
}

/// Returns an accepted change of a flow that has a SID: its SFID and its SID, in this order.
fn changed_with_sid(tail: &[u8]) -> Option<(u32, u16)>
    ensures spelled { IfSome result (λ n. tail.now ≡ tail_of Dsc Okay (Given None n.0 (Some n.1))) }
    ensures every { (sfid sid : ℕ) → sfid < 2 ^ 32 → sid < 2 ^ 16
        → tail.now ≡ tail_of Dsc Okay (Given None sfid (Some sid)) → result ≡ Some (sfid, sid) }
{
    match tail {
        [FLOW, 10, SFID, 4, a, b, c, d, SID, 2, sh, sl] => Some((
            u32::from_be_bytes([*a, *b, *c, *d]),
            u16::from_be_bytes([*sh, *sl]),
        )),
        _ => None,
    }
}

/// Returns what a refusal says of the invalid encoding, if its error encodings repeat the reply's
/// code.
fn matching_error(
    code: Code,
    number: u8,
    id: Option<FlowId>,
    subtype: u8,
) -> Option<(Option<FlowId>, u8)>
    ensures { result ≡ if number == code_number code then Some (id, subtype) else None }
{
    if number == code.number() {
        Some((id, subtype))
    } else {
        None
    }
}

/// Returns a refusal that names a flow by its SFID, and the invalid subtype.
fn errored_sfid(code: Code, tail: &[u8]) -> Option<(Option<FlowId>, u8)>
    ensures spelled { IfSome result (λ n. tail.now ≡ spelled (tlvs_in code (Errored n.0 n.1))) }
    ensures every { (sfid subtype : ℕ) → sfid < 2 ^ 32
        → tail.now ≡ spelled (tlvs_in code (Errored (Some (Sfid sfid)) subtype))
        → result ≡ Some (Some (Sfid sfid), subtype) }
{
    let [
        FLOW,
        14,
        SFID,
        4,
        a,
        b,
        c,
        d,
        ERRORED,
        6,
        ERRORED_PARAMETER,
        1,
        subtype,
        ERROR_CODE,
        1,
        number,
    ] = tail
    else {
        return None;
    };
    let sfid = u32::from_be_bytes([*a, *b, *c, *d]);
    matching_error(code, *number, Some(FlowId::Sfid(sfid)), *subtype)
}

/// Returns a refusal that names a subtype: the identifier of its flow, where it has one, and the
/// invalid subtype.
fn parse_refusal(code: Code, tail: &[u8]) -> Option<(Option<FlowId>, u8)>
    ensures spelled { IfSome result (λ n. tail.now ≡ spelled (tlvs_in code (Errored n.0 n.1))) }
    ensures every { (subtype : ℕ) → tail.now ≡ spelled (tlvs_in code (Errored None subtype))
        → result ≡ Some (None, subtype) }
    ensures every_reference { (reference subtype : ℕ) → reference < 2 ^ 16
        → tail.now ≡ spelled (tlvs_in code (Errored (Some (Reference reference)) subtype))
        → result ≡ Some (Some (Reference reference), subtype) }
    ensures every_sfid { (sfid subtype : ℕ) → sfid < 2 ^ 32
        → tail.now ≡ spelled (tlvs_in code (Errored (Some (Sfid sfid)) subtype))
        → result ≡ Some (Some (Sfid sfid), subtype) }
{
    match tail {
        [
            FLOW,
            8,
            ERRORED,
            6,
            ERRORED_PARAMETER,
            1,
            subtype,
            ERROR_CODE,
            1,
            number,
        ] => matching_error(code, *number, None, *subtype),
        [
            FLOW,
            12,
            REFERENCE,
            2,
            high,
            low,
            ERRORED,
            6,
            ERRORED_PARAMETER,
            1,
            subtype,
            ERROR_CODE,
            1,
            number,
        ] => {
            let reference = u16::from_be_bytes([*high, *low]);
            matching_error(code, *number, Some(FlowId::Reference(reference)), *subtype)
        }
        _ => errored_sfid(code, tail),
    }
}

/// Returns what an accepted addition says.
pub(crate) fn accepted_addition(tail: &[u8]) -> Option<Detail>
    ensures spelled { IfSome result (IsDetailSpelling Dsa Okay tail.now) }
    ensures every { (reference sfid sid : ℕ) → reference < 2 ^ 16 → sfid < 2 ^ 32 → sid < 16384
        → tail.now ≡ tail_of Dsa Okay (Given (Some reference) sfid (Some sid))
        → result ≡ Some (Given (Some reference) sfid (Some sid)) }
{
    let (reference, sfid, sid) = parse_addition(tail)?;
    if sid < 16384 {
        Some(Detail::Given {
            reference: Some(reference),
            sfid,
            sid: Some(sid),
        })
    } else {
        None
    }
}

/// Returns what an accepted change says.
pub(crate) fn accepted_change(tail: &[u8]) -> Option<Detail>
    ensures spelled { IfSome result (IsDetailSpelling Dsc Okay tail.now) }
    ensures every { (sfid : ℕ) → sfid < 2 ^ 32 → tail.now ≡ tail_of Dsc Okay (Given None sfid None)
        → result ≡ Some (Given None sfid None) }
    ensures every_with_sid { (sfid sid : ℕ) → sfid < 2 ^ 32 → sid < 16384
        → tail.now ≡ tail_of Dsc Okay (Given None sfid (Some sid)) → result ≡ Some (Given None sfid (Some sid)) }
{
    if let Some(sfid) = parse_change(tail) {
        return Some(Detail::Given {
            reference: None,
            sfid,
            sid: None,
        });
    }
    let (sfid, sid) = changed_with_sid(tail)?;
    if sid < 16384 {
        Some(Detail::Given {
            reference: None,
            sfid,
            sid: Some(sid),
        })
    } else {
        None
    }
}

/// Returns what a refused addition says.
pub(crate) fn refused_addition(code: Code, tail: &[u8]) -> Option<Detail>
    ensures spelled { code ≢ Okay → IfSome result (IsDetailSpelling Dsa code tail.now) }
    ensures every { tail.now ≡ tail_of Dsa code Nothing → result ≡ Some Nothing }
    ensures every_errored { (subtype : ℕ) → tail.now ≡ tail_of Dsa code (Errored None subtype)
        → result ≡ Some (Errored None subtype) }
    ensures every_reference { (reference subtype : ℕ) → reference < 2 ^ 16
        → tail.now ≡ tail_of Dsa code (Errored (Some (Reference reference)) subtype)
        → result ≡ Some (Errored (Some (Reference reference)) subtype) }
{
    if tail.is_empty() {
        return Some(Detail::Nothing);
    }
    match parse_refusal(code, tail)? {
        (Some(FlowId::Sfid(_)), _) => None,
        (id, subtype) => Some(Detail::Errored { id, subtype }),
    }
}

/// Returns what a refused change says.
pub(crate) fn refused_change(code: Code, tail: &[u8]) -> Option<Detail>
    ensures spelled { code ≢ Okay → IfSome result (IsDetailSpelling Dsc code tail.now) }
    ensures every { tail.now ≡ tail_of Dsc code Nothing → result ≡ Some Nothing }
    ensures every_errored { (subtype : ℕ) → tail.now ≡ tail_of Dsc code (Errored None subtype)
        → result ≡ Some (Errored None subtype) }
    ensures every_sfid { (sfid subtype : ℕ) → sfid < 2 ^ 32
        → tail.now ≡ tail_of Dsc code (Errored (Some (Sfid sfid)) subtype)
        → result ≡ Some (Errored (Some (Sfid sfid)) subtype) }
{
    if tail.is_empty() {
        return Some(Detail::Nothing);
    }
    match parse_refusal(code, tail)? {
        (Some(FlowId::Reference(_)), _) => None,
        (id, subtype) => Some(Detail::Errored { id, subtype }),
    }
}
