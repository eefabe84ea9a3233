//! Laws of reading and writing.

ghost use Rattle.std.specs.Prelude.{◌≡◌, ℕ, List, Ok, IfOk};
ghost use Rattle.tlv24.specs.declared.tlv.Tlv.{Tlv};
ghost use Rattle.tlv24.specs.declared.fields.FlowFields.{FlowFields};
ghost use Rattle.tlv24.specs.Tlv.{IsTlvList};
ghost use Rattle.tlv24.specs.Flow.{IsFlowEncoding, flow_of};
ghost use Rattle.tlv24.specs.Law.{AreBytes, IsRightAnswer};

use crate::flow::FlowTlv;
use crate::read::read_flow;
use crate::write::write_flow;
use std::alloc::{AllocError, Global};

/// States that bytes have one meaning.
pub fn one_meaning()
    // At most one record of fields is what the bytes say.
    ensures fields { (bytes : List ℕ) (m n : FlowFields) → IsFlowEncoding bytes m → IsFlowEncoding bytes n → m ≡ n }
    // At most one list of TLVs is what the bytes are.
    ensures tlvs { (bytes : List ℕ) (xs ys : List Tlv) → IsTlvList bytes xs → IsTlvList bytes ys → xs ≡ ys }
{}

/// States that `flow_of`, by which contracts read a flow encoding as a function, answers what the
/// bytes say, or their first fault; and what the bytes say it answers.
pub fn flow_is_read()
    ensures right { (bytes : List ℕ) → AreBytes bytes → IsRightAnswer bytes (flow_of bytes) }
    ensures only { (bytes : List ℕ) (m : FlowFields) → AreBytes bytes → IsFlowEncoding bytes m → flow_of bytes ≡ Ok m }
{}

/// Writes the fields and reads them back: they come back as they were. `AllocError` if memory runs
/// out.
pub fn read_back(alloc: Global, flow: &FlowTlv) -> Result<FlowTlv, AllocError>
    ensures { IfOk result (λ again. again ≡ flow.now) }
{
    let bytes = write_flow(alloc, flow)?;
    match read_flow(&bytes) {
        Ok(again) => Ok(again),
        Err(_) => unreachable!(),
    }
}
