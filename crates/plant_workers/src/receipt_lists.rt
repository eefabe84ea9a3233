//! The receipts of an operator's four callers.

ghost use Rattle.std.specs.Prelude.{All, IfOk};
ghost use Rattle.plant_workers.specs.receipts.Callers.{IsFor, AreByCallers};
ghost use Rattle.plant_workers.specs.declared.receipts.caller.Caller.TheVariants as callers;

use crate::cell_state::Told;
use crate::receipts::{Caller, Callers, Receipt, Receipts};
use crate::thread_report::ThreadReport;
use std::alloc::{AllocError, Global};

/// Keeps the receipts of an operator's four callers, each in the order in which it got them. The type keeps that each has
/// receipts of its own kind of action alone.
#[derive(Drop)]
pub(crate) struct Lists {
    dispatcher: Receipts,
    ticker: Receipts,
    worker: Receipts,
    owner: Receipts,
    ghost dispatched: { All (IsFor callers.Dispatcher) dispatcher },
    ghost ticked: { All (IsFor callers.Ticker) ticker },
    ghost worked: { All (IsFor callers.Worker) worker },
    ghost owned: { All (IsFor callers.Owner) owner },
}

/// Adds a receipt of a caller after its others.
fn add(caller: Caller, receipts: &mut Receipts, receipt: Receipt) -> Result<(), AllocError>
    requires for_caller { IsFor caller receipt }
    requires all { All (IsFor caller) receipts.old }
    ensures { All (IsFor caller) receipts.new }
{
    receipts.push(receipt)
}

impl Lists {
    /// Makes lists of no receipts. Takes no memory.
    fn new(alloc: Global) -> Lists {
        Lists {
            dispatcher: Receipts::new(alloc),
            ticker: Receipts::new(alloc),
            worker: Receipts::new(alloc),
            owner: Receipts::new(alloc),
        }
    }

    /// Adds a receipt after its caller's others.
    fn push(&mut self, told: Told) -> Result<(), AllocError> {
        let Told {
            op: _,
            caller,
            receipt,
        } = told;
        match caller {
            Caller::Dispatcher => add(Caller::Dispatcher, &mut self.dispatcher, receipt),
            Caller::Ticker => add(Caller::Ticker, &mut self.ticker, receipt),
            Caller::Worker => add(Caller::Worker, &mut self.worker, receipt),
            Caller::Owner => add(Caller::Owner, &mut self.owner, receipt),
        }
    }

    /// Gives the receipts of the four callers: the dispatcher, the ticker, the worker and the owner.
    fn into_callers(self, alloc: Global) -> Result<Callers, AllocError>
        ensures { IfOk result AreByCallers }
    {
        let Lists {
            dispatcher,
            ticker,
            worker,
            owner,
        } = self;
        let mut lists = Vec::with_capacity(alloc, 4)?;
        lists.push(dispatcher)?;
        lists.push(ticker)?;
        lists.push(worker)?;
        lists.push(owner)?;
        Ok(Callers::from_vec(lists))
    }
}

/// Makes lists of no receipts, for so many operators.
pub(crate) fn no_lists(alloc: Global, operators: usize) -> Result<Vec<Lists>, AllocError> {
    let mut lists = Vec::with_capacity(alloc, operators)?;
    for _ in 0..operators {
        lists.push(Lists::new(alloc))?;
    }
    Ok(lists)
}

/// Adds receipts, each to those of its operator.
pub(crate) fn add_told(lists: &mut Vec<Lists>, all: Vec<Told>) -> Result<(), AllocError> {
    for told in all {
        let op = told.op;
        if op < lists.len() {
            lists[op].push(told)?;
        }
    }
    Ok(())
}

/// Adds the receipts of all threads.
pub(crate) fn add_tales(
    lists: &mut Vec<Lists>,
    thread_reports: Vec<ThreadReport>,
) -> Result<(), AllocError> {
    for thread_report in thread_reports {
        let ThreadReport { told, refused: _ } = thread_report;
        add_told(lists, told)?;
    }
    Ok(())
}

/// Gives the callers of each operator.
pub(crate) fn callers_of(alloc: Global, lists: Vec<Lists>) -> Result<Vec<Callers>, AllocError>
    ensures { IfOk result (λ callers. All AreByCallers callers.items) }
{
    let mut callers = Vec::with_capacity(alloc, lists.len())?;
    for list in lists {
        callers.push(list.into_callers(alloc)?)?;
    }
    Ok(callers)
}
