//! Writing a flow encoding in its one spelling.

ghost use Rattle.std.specs.Prelude.{◌≡◌, ℕ, ◌<◌, ◌^◌, List, [], ◌∷◌, ◌++◌, length, IfOk, IfSome, OnOk};
ghost use Rattle.std.specs.Option.{option_map};
ghost use Rattle.std.specs.Int.{w16, w32, to_be_bytes};
ghost use Rattle.tlv24.specs.Tlv.{tlv, spelled_one, spelled};
ghost use Rattle.tlv24.specs.Name.{IsClassName};
ghost use Rattle.tlv24.specs.Flow.{IsFlowEncoding};
ghost use Rattle.tlv24.specs.Spelling.{single, terminated_name, spelled_error, under, tlvs_of};

use crate::class_name::ClassName;
use crate::fields::ErrorEncodings;
use crate::flow::FlowTlv;
use crate::subtype;
use std::alloc::{AllocError, Global};

/// Appends one TLV: its type, its length and its value.
#[inline(always)]
fn put_tlv(out: &mut Vec<u8>, subtype: u8, value: &[u8]) -> Result<(), AllocError>
    requires { length value.now < 256 }
    ensures { OnOk result (out.new.items ≡ out.old.items ++ spelled_one (tlv subtype value.now)) }
{
    out.extend_from_slice(&[subtype, value.len() as u8])?;
    out.extend_from_slice(value)
}

/// Appends a field of one byte, where it exists.
fn put_byte(out: &mut Vec<u8>, subtype: u8, value: Option<u8>) -> Result<(), AllocError>
    ensures { OnOk result (out.new.items ≡ out.old.items ++ spelled (under subtype (option_map single value))) }
{
    match value {
        Some(n) => put_tlv(out, subtype, &[n]),
        None => Ok(()),
    }
}

/// Appends a field of two bytes, where it exists.
#[inline(always)]
fn put_word(out: &mut Vec<u8>, subtype: u8, value: Option<u16>) -> Result<(), AllocError>
    ensures bytes { OnOk result (out.new.items ≡ out.old.items
        ++ spelled (under subtype (option_map (to_be_bytes w16) value))) }
    ensures fits { IfSome value (λ n. n < 2 ^ 16) }
{
    match value {
        Some(n) => put_tlv(out, subtype, &n.to_be_bytes()),
        None => Ok(()),
    }
}

/// Appends a field of four bytes, where it exists.
#[inline(always)]
fn put_long(out: &mut Vec<u8>, subtype: u8, value: Option<u32>) -> Result<(), AllocError>
    ensures bytes { OnOk result (out.new.items ≡ out.old.items
        ++ spelled (under subtype (option_map (to_be_bytes w32) value))) }
    ensures fits { IfSome value (λ n. n < 2 ^ 32) }
{
    match value {
        Some(n) => put_tlv(out, subtype, &n.to_be_bytes()),
        None => Ok(()),
    }
}

/// Appends the class name and the 0 that ends it, where it exists.
fn put_class_name(
    out: &mut Vec<u8>,
    subtype: u8,
    value: Option<ClassName>,
) -> Result<(), AllocError>
    ensures bytes { OnOk result (out.new.items ≡ out.old.items
        ++ spelled (under subtype (option_map terminated_name value))) }
    ensures valid { IfSome value IsClassName }
{
    let Some(name) = value else {
        return Ok(());
    };
    let name = name.as_slice();
    out.push(subtype)?;
    out.push(name.len() as u8 + 1)?;
    out.extend_from_slice(name)?;
    out.push(0)?;
    Ok(())
}

/// Appends error encodings, where they exist.
fn put_errored(
    out: &mut Vec<u8>,
    subtype: u8,
    value: Option<ErrorEncodings>,
) -> Result<(), AllocError>
    ensures { OnOk result (out.new.items ≡ out.old.items ++ spelled (under subtype (option_map spelled_error value))) }
{
    match value {
        Some(e) => put_tlv(
            out,
            subtype,
            &[
                subtype::ERRORED_PARAMETER,
                1,
                e.errored_parameter,
                subtype::ERROR_CODE,
                1,
                e.code,
            ],
        ),
        None => Ok(()),
    }
}

/// Returns the value of a type 24 TLV that says these fields: those that are present, each once, in
/// ascending order of subtype. `AllocError` if memory runs out.
pub fn write_flow(alloc: Global, flow: &FlowTlv) -> Result<Vec<u8>, AllocError>
    // The one spelling.
    ensures spelling { IfOk result (λ bytes. bytes.items ≡ spelled (tlvs_of flow.now)) }
    // It says these very fields.
    ensures encoding { IfOk result (λ bytes. IsFlowEncoding bytes.items flow.now) }
{
    let fields = flow.get_fields();
    let mut out = Vec::new(alloc);
    put_word(&mut out, subtype::REFERENCE, fields.reference)?;
    put_long(&mut out, subtype::SFID, fields.sfid)?;
    put_word(&mut out, subtype::SID, fields.sid)?;
    put_class_name(&mut out, subtype::CLASS_NAME, fields.class_name)?;
    put_errored(&mut out, subtype::ERRORED, fields.errored)?;
    put_byte(&mut out, subtype::SET_TYPE, fields.set_type)?;
    put_byte(&mut out, subtype::TRAFFIC_PRIORITY, fields.traffic_priority)?;
    put_long(
        &mut out,
        subtype::MAX_SUSTAINED_RATE,
        fields.max_sustained_rate,
    )?;
    put_long(&mut out, subtype::MAX_BURST, fields.max_burst)?;
    put_long(
        &mut out,
        subtype::MIN_RESERVED_RATE,
        fields.min_reserved_rate,
    )?;
    put_byte(&mut out, subtype::SCHEDULING_TYPE, fields.scheduling_type)?;
    put_long(&mut out, subtype::REQUEST_POLICY, fields.request_policy)?;
    put_long(&mut out, subtype::POLLING_INTERVAL, fields.polling_interval)?;
    put_long(&mut out, subtype::POLL_JITTER, fields.poll_jitter)?;
    put_word(&mut out, subtype::GRANT_SIZE, fields.grant_size)?;
    put_long(&mut out, subtype::GRANT_INTERVAL, fields.grant_interval)?;
    put_long(&mut out, subtype::GRANT_JITTER, fields.grant_jitter)?;
    put_byte(
        &mut out,
        subtype::GRANTS_PER_INTERVAL,
        fields.grants_per_interval,
    )?;
    Ok(out)
}
