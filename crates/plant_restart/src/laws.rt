//! Laws of changes of plant.

ghost use Rattle.plant_restart.specs.Noticing.{ChangeKeepsState, ChangeIsNotNoticed};

/// States that an operator whose row stays the same notices nothing of a change of its plant: it goes on in its state, and it
/// notices the same as where the plant is changed in another way, or not at all.
pub fn change_is_not_noticed()
    // An operator with the same row goes on in its state, if no class is added.
    ensures keeps { ChangeKeepsState }
    // It notices the same as if the plant changed otherwise or never, if its own steps are the same.
    ensures notices { ChangeIsNotNoticed }
{}
