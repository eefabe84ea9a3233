//! Laws of services.

ghost use Rattle.state_service.specs.resumed.Items.{ServiceIsOfChanges, ServiceIsOfRuns};

/// States that a service is one run after the other, each from where the one before it ended: its plant is changed, or its frames
/// get other numbers, of which an operator notices these numbers alone (`renumbering_is_not_noticed`).
pub fn service_is_of_runs()
    ensures { ServiceIsOfRuns }
{}

/// States that a service whose plant is changed, and whose frames keep their numbers, is one run after the other, each changed
/// from where the one before it ended. So an operator that keeps its row does not notice the changes
/// (`changes_are_not_noticed`).
pub fn service_is_of_changes()
    ensures { ServiceIsOfChanges }
{}
