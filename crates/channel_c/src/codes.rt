//! The numbers by which calls say how they ended.

ghost use Rattle.std.specs.Prelude.{◌≡◌};
ghost use Rattle.channel_c.specs.Codes.{change_code, core_code, plant_code, reslice_code, rest_code, restart_code, restore_code, save_code};

use operator_book::BookFault;
use plant_core::{CoreFault, ResliceFault, RestFault};
use plant_restart::{ChangeFault, RestartFault, RestoreFault, SaveFault};
use slice_table::PlantFault;

/// The call did what it was asked for.
pub const DONE: u32 = 0;

/// Memory ran out before any effect.
pub const NO_MEMORY: u32 = 1;

/// The handle is closed.
pub const CLOSED: u32 = 2;

/// A buffer is too small for the output that waits first, which goes on waiting.
pub const SHORT: u32 = 3;

/// No output waits.
pub const NONE_WAITS: u32 = 4;

/// A message is in the inbox, and memory ran out before it was handled.
pub const RECEIVED: u32 = 5;

/// The text is not a snapshot.
pub const NOT_SNAPSHOT: u32 = 45;

/// Returns the number of a fault of a plant file: 10 to 19, or 1 if memory ran out.
pub fn plant_code(fault: PlantFault) -> u32
    ensures { result ≡ plant_code fault }
{
    match fault {
        PlantFault::NotToml => 10,
        PlantFault::Missing { key: _ } => 11,
        PlantFault::BadValue { key: _ } => 12,
        PlantFault::SlicesMeet { a: _, b: _ } => 13,
        PlantFault::SidsMeet { a: _, b: _ } => 14,
        PlantFault::SfidsMeet { a: _, b: _ } => 15,
        PlantFault::ModemTwice { modem: _ } => 16,
        PlantFault::TooManyElements { total: _ } => 17,
        PlantFault::BudgetOverSlice { operator: _ } => 18,
        PlantFault::ProvisionedOver { operator: _ } => 19,
        PlantFault::NoMemory => NO_MEMORY,
    }
}

/// Returns the number of a fault of a slice change: 30 to 36.
fn reslice_code(fault: ResliceFault) -> u32
    ensures { result ≡ reslice_code fault }
{
    match fault {
        ResliceFault::Count => 30,
        ResliceFault::NotPast { op: _ } => 31,
        ResliceFault::Unfinished { op: _ } => 32,
        ResliceFault::OffFrame { op: _ } => 33,
        ResliceFault::SlicesMeet { a: _, b: _ } => 34,
        ResliceFault::BudgetOverSlice { op: _ } => 35,
        ResliceFault::Unfit { op: _ } => 36,
    }
}

/// Returns the number of a step's fault: 20 to 36, or 1 if memory ran out.
pub fn code_of(fault: CoreFault) -> u32
    ensures { result ≡ core_code fault }
{
    match fault {
        CoreFault::UnknownModem { modem: _ } => 20,
        CoreFault::UnknownOperator { op: _ } => 21,
        CoreFault::Book(BookFault::FramesSpent) => 22,
        CoreFault::NothingToCollect { op: _ } => 23,
        CoreFault::Book(_) => 24,
        CoreFault::Gather(_) => 25,
        CoreFault::NoMemory => NO_MEMORY,
        CoreFault::Reslice(fault) => reslice_code(fault),
    }
}

/// Returns the number by which a channel does not rest before a frame: 40 or 41.
fn rest_code(fault: RestFault) -> u32
    ensures { result ≡ rest_code fault }
{
    match fault {
        RestFault::FrameWaits { op: _ } => 40,
        RestFault::NotAtFrame { op: _ } => 41,
    }
}

/// Returns the number by which operators do not start in their states: 43 or 44, or 1 if memory ran
/// out.
fn restart_code(fault: RestartFault) -> u32
    ensures { result ≡ restart_code fault }
{
    match fault {
        RestartFault::State { op: _, why: _ } => 43,
        RestartFault::Core { why: _ } => 44,
        RestartFault::NoMemory => NO_MEMORY,
    }
}

/// Returns the number by which a channel is not saved: 40 or 41, or 1 if memory ran out.
pub fn save_code(fault: SaveFault) -> u32
    ensures { result ≡ save_code fault }
{
    match fault {
        SaveFault::Unfinished { why } => rest_code(why),
        SaveFault::NoMemory => NO_MEMORY,
    }
}

/// Returns the number by which the plant of a channel is not changed: 40 to 44, or 1 if memory ran
/// out.
pub fn change_code(fault: ChangeFault) -> u32
    ensures { result ≡ change_code fault }
{
    match fault {
        ChangeFault::ConstantsDiffer => 42,
        ChangeFault::Unfinished { why } => rest_code(why),
        ChangeFault::Restart { why } => restart_code(why),
    }
}

/// Returns the number by which a plant does not start in saved states: 43, 44 or 46, or 1 if memory
/// ran out.
pub fn restore_code(fault: RestoreFault) -> u32
    ensures { result ≡ restore_code fault }
{
    match fault {
        RestoreFault::UnknownOperator { name: _ } => 46,
        RestoreFault::Restart { why } => restart_code(why),
    }
}
