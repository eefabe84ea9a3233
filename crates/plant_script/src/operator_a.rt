//! The operator that is built in.

ghost use Rattle.std.specs.Prelude.{◌≡◌, codes, IfOk};
ghost use Rattle.operator_model.specs.Worked.{first_modem};
ghost use Rattle.plant_script.specs.OperatorA.{row_a, consts_a};

use admission::IdRange;
use dsx_messages::Modem;
use grant_policy::Policy;
use param_sets::Units;
use plant::{
    Backoffs, Channel, Classes, Consts, ConstsFields, Modems, OperatorName, OperatorRow,
    Provisions, RowFields,
};
use slice_scheduler::Slice;
use std::alloc::{AllocError, Global};
use transactions::Timers;

/// Returns the modem that `one` speaks for.
pub fn first_modem() -> Modem
    ensures { result ≡ first_modem }
{
    Modem([2, 0, 0, 0, 0, 1])
}

/// Returns the name of operator A.
fn name_a() -> OperatorName
    ensures { result ≡ codes "A" }
{
    match OperatorName::new(b"A") {
        Some(name) => name,
        None => unreachable!(),
    }
}

/// Returns the row of operator A.
pub fn row_a(alloc: Global) -> Result<OperatorRow, AllocError>
    ensures { IfOk result (λ row. row ≡ row_a) }
{
    let mut modems = Vec::with_capacity(alloc, 2)?;
    modems.push(first_modem())?;
    modems.push(Modem([2, 0, 0, 0, 0, 2]))?;
    Ok(OperatorRow::new(RowFields {
        name: name_a(),
        slice: Slice::new(8, 32),
        sfids: IdRange::new(257, 512),
        sids: IdRange::new(257, 272),
        flows: 4,
        transactions: 4,
        inbox: 4,
        budget: 32,
        elements: 8,
        policy: Policy::Strict,
        modems: Modems::from_vec(modems),
        provisions: Provisions::from_vec(Vec::new(alloc)),
    }))
}

/// Returns what its plant's operators share.
pub fn consts_a(alloc: Global) -> Consts
    ensures { result ≡ consts_a }
{
    Consts::new(ConstsFields {
        channel: Channel {
            frame_minislots: 72,
            head: 8,
            id: 1,
            ucd_count: 1,
            backoffs: Backoffs {
                ranging_start: 0,
                ranging_end: 0,
                data_start: 0,
                data_end: 0,
            },
            first_frame: 0,
        },
        units: Units::new(2000, 16),
        short_max: 4,
        timers: Timers::new(150, 3, 1500),
        classes: Classes::from_vec(Vec::new(alloc)),
    })
}
