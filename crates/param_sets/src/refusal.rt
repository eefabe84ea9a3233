//! Why a parameter set is refused.

ghost use Rattle.std.specs.Prelude.{◌≡◌};
ghost use Rattle.param_sets.specs.FirstTrue.{first_true};

use dsx_messages::Code;

/// The code of a refusal, and the subtype that is missing or wrong.
#[derive(Clone, Copy, Debug, PartialEq, Eq)]
pub struct Refusal {
    /// The confirmation code.
    pub code: Code,
    /// The subtype of the flow encoding.
    pub subtype: u8,
}

/// Returns the subtype next to the first test that is true.
pub(crate) fn first_true(rows: &[(bool, u8)]) -> Option<u8>
    ensures { result ≡ first_true rows.now }
{
    rows.iter().find(|row| row.0).map(|row| row.1)
}
