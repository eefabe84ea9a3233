//! The spelling of replies.

ghost use Rattle.std.specs.Prelude.{◌≡◌, ℕ, ◌+◌, ◌≤◌, [], ◌∷◌, ◌++◌, length, Some, IfOk};
ghost use Rattle.std.specs.Option.{option_map};
ghost use Rattle.std.specs.Int.{w16, w32, to_be_bytes};
ghost use Rattle.tlv24.specs.Tlv.{tlv, spelled, spelled_one};
ghost use Rattle.tlv24.specs.Spelling.{under};
ghost use Rattle.dsx_messages.specs.Code.{code_number};
ghost use Rattle.dsx_messages.specs.TlvType.{upstream_service_flow};
ghost use Rattle.dsx_messages.specs.Spelling.{response_type, id_tlv, given_tlvs, errored_tlvs, tlvs_in, tail_of, spell_reply};

use crate::code::Code;
use crate::kind::Kind;
use crate::reply::{Detail, FlowId, Reply};
use crate::{message_type, tlv_type};
use std::alloc::{AllocError, Global};
use tlv24::{ShortBytes, subtype};

fn response_type(kind: Kind) -> u8
    ensures { result ≡ response_type kind }
{
    match kind {
        Kind::Dsa => message_type::DSA_RSP,
        Kind::Dsc => message_type::DSC_RSP,
        Kind::Dsd => message_type::DSD_RSP,
    }
}

/// Puts a TLV: its type, its length and its value.
#[inline(always)]
fn put_tlv(out: &mut ShortBytes, subtype: u8, value: &[u8])
    requires { length out.old + length value.now ≤ 28 }
    ensures { out.new ≡ out.old ++ spelled_one (tlv subtype value.now) }
{
    out.put(&[subtype, value.len() as u8]);
    out.put(value);
}

/// Puts a field of two bytes, where it exists.
#[inline(always)]
fn put_word(out: &mut ShortBytes, subtype: u8, value: Option<u16>)
    requires { length out.old ≤ 26 }
    ensures bytes { out.new ≡ out.old ++ spelled (under subtype (option_map (to_be_bytes w16) value)) }
    ensures few { length out.new ≤ length out.old + 4 }
{
    if let Some(n) = value {
        put_tlv(out, subtype, &n.to_be_bytes());
    }
}

/// Puts a field of four bytes.
#[inline(always)]
fn put_long(out: &mut ShortBytes, subtype: u8, value: u32)
    requires { length out.old ≤ 24 }
    ensures bytes { out.new ≡ out.old ++ spelled (under subtype (option_map (to_be_bytes w32) (Some value))) }
    ensures few { length out.new ≤ length out.old + 6 }
{
    put_tlv(out, subtype, &value.to_be_bytes());
}

/// Puts the identifier of an invalid encoding.
fn put_id(out: &mut ShortBytes, id: Option<FlowId>)
    requires { length out.old ≤ 24 }
    ensures bytes { out.new ≡ out.old ++ spelled (id_tlv id) }
    ensures few { length out.new ≤ length out.old + 6 }
{
    match id {
        None => {}
        Some(FlowId::Reference(reference)) => put_word(out, subtype::REFERENCE, Some(reference)),
        Some(FlowId::Sfid(sfid)) => put_long(out, subtype::SFID, sfid),
    }
}

/// Returns how many bytes an identifier takes.
fn id_len(id: Option<FlowId>) -> u8
    ensures { result ≡ length (spelled (id_tlv id)) }
{
    match id {
        None => 0,
        Some(FlowId::Reference(_)) => 4,
        Some(FlowId::Sfid(_)) => 6,
    }
}

/// Returns how many bytes a reference or a SID takes.
fn word_len(value: Option<u16>) -> u8
    ensures exact { (subtype : ℕ) → result ≡ length (spelled (under subtype (option_map (to_be_bytes w16) value))) }
    ensures few { result ≤ 4 }
{
    match value {
        None => 0,
        Some(_) => 4,
    }
}

/// Puts the flow that was added or changed.
fn put_given(out: &mut ShortBytes, reference: Option<u16>, sfid: u32, sid: Option<u16>)
    requires { length out.old ≤ 4 }
    ensures { out.new ≡ out.old
        ++ spelled (tlv upstream_service_flow (spelled (given_tlvs reference sfid sid)) ∷ []) }
{
    let count = word_len(reference) + 6 + word_len(sid);
    out.put(&[tlv_type::UPSTREAM_SERVICE_FLOW, count]);
    put_word(out, subtype::REFERENCE, reference);
    put_long(out, subtype::SFID, sfid);
    put_word(out, subtype::SID, sid);
}

/// Puts the invalid encoding and its subtype.
fn put_errored(out: &mut ShortBytes, code: Code, id: Option<FlowId>, subtype: u8)
    requires { length out.old ≤ 4 }
    ensures { out.new ≡ out.old
        ++ spelled (tlv upstream_service_flow (spelled (errored_tlvs code id subtype)) ∷ []) }
{
    let count = id_len(id) + 8;
    out.put(&[tlv_type::UPSTREAM_SERVICE_FLOW, count]);
    put_id(out, id);
    out.put(&[
        subtype::ERRORED,
        6,
        subtype::ERRORED_PARAMETER,
        1,
        subtype,
        subtype::ERROR_CODE,
        1,
        code.number(),
    ]);
}

fn put_detail(out: &mut ShortBytes, code: Code, detail: Detail)
    requires { length out.old ≤ 4 }
    ensures { out.new ≡ out.old ++ spelled (tlvs_in code detail) }
{
    match detail {
        Detail::Nothing => {}
        Detail::Given {
            reference,
            sfid,
            sid,
        } => put_given(out, reference, sfid, sid),
        Detail::Errored { id, subtype } => put_errored(out, code, id, subtype),
    }
}

/// Puts what follows the confirmation code.
fn put_tail(out: &mut ShortBytes, kind: Kind, code: Code, detail: Detail)
    requires { length out.old ≤ 4 }
    ensures { out.new ≡ out.old ++ tail_of kind code detail }
{
    match kind {
        Kind::Dsa | Kind::Dsc => put_detail(out, code, detail),
        Kind::Dsd => out.put(&[0]),
    }
}

/// Returns the bytes of a reply, its one spelling: at most 20. Takes no memory.
pub fn reply_bytes(reply: &Reply) -> ShortBytes
    ensures { result ≡ spell_reply reply.now }
{
    let mut out = ShortBytes::new();
    let [high, low] = reply.get_tid().to_be_bytes();
    let code = reply.get_code();
    out.put(&[response_type(reply.get_kind()), high, low, code.number()]);
    put_tail(&mut out, reply.get_kind(), code, reply.get_detail());
    out
}

/// Returns the bytes of a reply in memory of their own: its one spelling.
pub fn write_reply(alloc: Global, reply: &Reply) -> Result<Vec<u8>, AllocError>
    ensures { IfOk result (λ bytes. bytes.items ≡ spell_reply reply.now) }
{
    Vec::from_slice(alloc, reply_bytes(reply).as_slice())
}
