//! Laws of a service that goes on in another process.

ghost use Rattle.restart_laws.specs.Restarting.{BeginsInForce, StaysInForce, FileGoesOn, BeginsOfItsModems, StaysOfItsModems, ModemsGoOn, NumbersKeepModems, NumbersAreNotNoticed, AnsweredIsReady, SnapshotBeginsService, SnapshotIsServed, SavedStatesAreRestored, OnlyMemoryRefuses, RestartIsChange};
ghost use Rattle.restart_laws.specs.Processes.{PlantFileBegins, ProcessesAreChanges, KeptRowsGoThroughAll, RestartsAreNotNoticed};

/// States that the plant file in force says the plant of the run, and is read whole before a line of three dashes: as a service
/// begins, after each answer, and as another process goes on.
pub fn file_in_force_stays()
    // This holds where a service begins with a plant file and has lines after it.
    ensures begins { BeginsInForce }
    // It holds after each answer.
    ensures stays { StaysInForce }
    // It holds where the next process goes on. It need not hold of a snapshot that no service wrote.
    ensures goes_on { FileGoesOn }
{}

/// States that all that an operator's machine has is of modems that its row lists: as a service begins with a plant file, after
/// each answer that does not change the plant, after a line `N`, and as another process goes on.
pub fn modems_stay_listed()
    // This holds where a service begins with a plant file.
    ensures begins { BeginsOfItsModems }
    // It holds after each answer that does not change the plant. No clause gives it after a change.
    ensures stays { StaysOfItsModems }
    // It holds after a line `N`.
    ensures numbers { NumbersKeepModems }
    // It holds in the next process.
    ensures goes_on { ModemsGoOn }
{}

/// States that an operator notices nothing of a line `N` but the numbers of its frames: whatever is done after it, it gives the
/// outputs that it would have given without that line.
pub fn numbers_are_not_noticed()
    // This is as long as there are numbers for the frames. No law joins it with `changes_are_not_noticed` over all
    // periods.
    ensures { NumbersAreNotNoticed }
{}

/// States that what the line `K` is answered, and a line of three dashes, begin a service: with the plant, the plant file and
/// the states of the core that answered, and with no others.
pub fn snapshot_begins_a_service()
    // The core rests, and the answer is the text of its snapshot.
    ensures ready { AnsweredIsReady }
    // An input of that text and a line of three dashes says the plant, the plant file and the states of that core.
    // Premises: the values fit their types (`FitsTypes`), and the answer has fewer than 2^32 bytes.
    ensures begins { SnapshotBeginsService }
    // A service that begins with that text goes on from there.
    ensures served { SnapshotIsServed }
{}

/// States that the states that the line `K` is answered can be restored, so the second process refuses them only if memory runs
/// out.
pub fn saved_states_are_restored()
    // Each saved operator has a row, and all operators can start in their saved states. Premises: the values fit their
    // types, and the run started with states of listed modems (`StartsOfItsModems`).
    ensures restored { SavedStatesAreRestored }
    // That text is refused only if memory runs out. It has fewer than 2^32 bytes.
    ensures faults { OnlyMemoryRefuses }
{}

/// States that a second process that goes on from the answer to the line `K` changes the plant of the first one, to the same
/// plant.
pub fn restart_is_a_change()
    ensures { RestartIsChange }
{}

/// States that a service that begins with a plant file, and has lines after it, begins with a core of that plant.
pub fn plant_file_begins_a_service()
    ensures { PlantFileBegins }
{}

/// States that processes of which each goes on from the snapshot that the one before it ended with are one service, if frames
/// keep their numbers. So an operator that keeps its row does not notice the restarts.
pub fn restart_is_not_noticed()
    // The periods of any number of processes are those of one service, if no line `N` gave other numbers.
    ensures changes { ProcessesAreChanges }
    // An operator that keeps its row and the constants goes through them.
    ensures rows { KeptRowsGoThroughAll }
    // It notices the same as in any other course with the same own steps.
    ensures notices { RestartsAreNotNoticed }
{}
