//! What the flow encodings of a request say, looked at together.

ghost use Rattle.std.specs.Prelude.{◌≡◌};
ghost use Rattle.operator_model.specs.Asked.{id_number, is_same, has_set_type, stand_together};

use dsx_messages::Kind;
use tlv24::{FlowTlv, SetType};

/// Returns the identifier of an encoding as a number: the reference in an addition, the SFID in a
/// change.
pub fn id_number(kind: Kind, flow: &FlowTlv) -> Option<u32>
    ensures { result ≡ id_number kind flow.now }
{
    match kind {
        Kind::Dsa => Some(u32::from(flow.get_reference()?)),
        Kind::Dsc => flow.get_sfid(),
        Kind::Dsd => None,
    }
}

/// Returns whether two numbers are the same: two absent ones are.
pub fn is_same(a: Option<u32>, b: Option<u32>) -> bool
    ensures { result ≡ is_same a b }
{
    match (a, b) {
        (None, None) => true,
        (Some(a), Some(b)) => a == b,
        _ => false,
    }
}

/// Returns whether an encoding has this set type (CM-SP-MULPIv3.1, Annex C, subtype 6).
pub fn has_set_type(set_type: SetType, flow: &FlowTlv) -> bool
    ensures { result ≡ has_set_type set_type flow.now }
{
    match flow.get_set_type() {
        None => false,
        Some(number) => number == set_type.number(),
    }
}

/// Returns whether encodings may be in one request: one alone, or two of which one is for the
/// admitted set and the other for the active set.
pub fn stand_together(encodings: &[FlowTlv]) -> bool
    ensures { result ≡ stand_together encodings.now }
{
    match encodings {
        [_] => true,
        [a, b] => {
            has_set_type(SetType::Admitted, a) && has_set_type(SetType::Active, b)
                || has_set_type(SetType::Active, a) && has_set_type(SetType::Admitted, b)
        }
        _ => false,
    }
}
