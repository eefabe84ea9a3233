//! Laws of `within`.

ghost use Rattle.std.specs.Prelude.{Option, Some, None};
ghost use Rattle.param_sets.specs.Within.{IsWithin, IsWithinOrNull};
ghost use Rattle.param_sets.specs.Sets.{AreNested, IsWithinProvisioned};
ghost use Rattle.param_sets.specs.declared.param_set.ParamFields.{ParamFields};
ghost use Rattle.param_sets.specs.declared.sets.SetsFields.{SetsFields};

/// States that each set is within itself.
#[tactic(auto, using(crate::proofs::WithinLemmas::within_self))]
pub fn within_is_reflexive()
    ensures { (a : ParamFields) → IsWithin a a }
{}

/// States that what is within a set is within each set that holds it.
#[tactic(auto, using(crate::proofs::WithinLemmas::within_both))]
pub fn within_is_transitive()
    ensures { (a b c : ParamFields) → IsWithin a b → IsWithin b c → IsWithin a c }
{}

/// States that the null set is within every set, and within the null set.
pub fn null_is_within()
    ensures { (b : Option ParamFields) → IsWithinOrNull None b }
{}

/// States that what is served is within what was provisioned, where something was.
#[tactic(auto, using(crate::proofs::WithinLemmas::within_all))]
pub fn active_is_within_provisioned()
    ensures { (sets : SetsFields) → AreNested sets → IsWithinProvisioned sets.active sets.provisioned }
{}
