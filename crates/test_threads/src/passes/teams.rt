//! Threads that each have passes of their own.

ghost use Rattle.std.specs.Prelude.{◌<◌, All, IfOk, IfSome, vec_len};
ghost use Rattle.plant_passes.specs.Passes.{IsOfCell};
ghost use Rattle.plant_passes.specs.ViewOf.{cell_of, pass_of};

use crate::passes::cells::{MODEM, addition, next_of};
use crate::passes::racing::{PlaysJob, race};
use operator_book::BookFault;
use plant_passes::{CellFault, Pass, PassedCell, Receipt};
use std::alloc::{AllocError, Global};
use std::sync::Wait;
use std::thread::Threads;

/// The passes of a thread, how many calls it makes with each, and what they were answered.
#[derive(Drop)]
pub(crate) struct Team {
    pub passes: Vec<Pass>,
    pub calls: usize,
    pub receipts: Vec<Receipt>,
}

/// Returns an arrival of a modem's addition, work or a tick, in turn.
fn call<R: Wait>(
    rt: &R,
    alloc: Global,
    cell: &PassedCell,
    pass: &mut Pass,
    turn: usize,
) -> Result<Receipt, CellFault>
    requires { IsOfCell (cell_of cell.now) (pass_of pass.old) }
    ensures { IsOfCell (cell_of cell.now) (pass_of pass.new) }
{
    match turn % 3 {
        0 => match addition(alloc) {
            Some(heard) => cell.arrive(rt, alloc, pass, MODEM, heard),
            None => Err(CellFault::Book(BookFault::NoMemory)),
        },
        1 => cell.work(rt, alloc, pass),
        _ => cell.tick(rt, alloc, pass),
    }
}

/// Makes calls with a pass up to one that is refused, and keeps their receipts.
fn call_on<R: Wait>(
    rt: &R,
    alloc: Global,
    cell: &PassedCell,
    pass: &mut Pass,
    calls: usize,
    receipts: &mut Vec<Receipt>,
)
    requires { IsOfCell (cell_of cell.now) (pass_of pass.old) }
    ensures { IsOfCell (cell_of cell.now) (pass_of pass.new) }
{
    for turn in 0..calls {
        let Ok(receipt) = call(rt, alloc, cell, pass, turn) else {
            return;
        };
        if receipts.push(receipt).is_err() {
            return;
        }
    }
}

/// Keeps a pass next to others. Where there is no memory it is lost, and its cell never gives the
/// book.
fn keep(cell: &PassedCell, passes: &mut Vec<Pass>, pass: Pass)
    requires others { All (λ p. IsOfCell (cell_of cell.now) (pass_of p)) passes.old.items }
    requires one { IsOfCell (cell_of cell.now) (pass_of pass) }
    ensures { All (λ p. IsOfCell (cell_of cell.now) (pass_of p)) passes.new.items }
{
    let _lost = passes.push(pass);
}

impl<R: Wait> PlaysJob<R> for PassedCell {
    type Job = Team;

    ghost suits = { λ cell team. All (λ p. IsOfCell (cell_of cell) (pass_of p)) team.passes.items };

    fn play(&self, rt: &R, alloc: Global, mut team: Team) -> Team {
        let mut played = Vec::new(alloc);
        while let Some(mut pass) = next_of(self, &mut team.passes) {
            call_on(rt, alloc, self, &mut pass, team.calls, &mut team.receipts);
            keep(self, &mut played, pass);
        }
        team.passes = played;
        team
    }
}

/// Returns so many passes, taken from some.
fn team_of(
    alloc: Global,
    cell: &PassedCell,
    passes: &mut Vec<Pass>,
    each: usize,
    calls: usize,
) -> Option<Team>
    requires { All (λ p. IsOfCell (cell_of cell.now) (pass_of p)) passes.old.items }
    ensures one { IfSome result (λ team. All (λ p. IsOfCell (cell_of cell.now) (pass_of p)) team.passes.items) }
    ensures others { All (λ p. IsOfCell (cell_of cell.now) (pass_of p)) passes.new.items }
{
    let mut taken = Vec::new(alloc);
    for _ in 0..each {
        taken.push(next_of(cell, passes)?).ok()?;
    }
    Some(Team {
        passes: taken,
        calls,
        receipts: Vec::new(alloc),
    })
}

/// Returns some teams, and one more of the same cell.
fn with_team(cell: &PassedCell, mut teams: Vec<Team>, team: Team) -> Result<Vec<Team>, AllocError>
    requires others { All (λ team. All (λ p. IsOfCell (cell_of cell.now) (pass_of p)) team.passes.items) teams.items }
    requires one { All (λ p. IsOfCell (cell_of cell.now) (pass_of p)) team.passes.items }
    ensures { IfOk result (λ all. All (λ team. All (λ p. IsOfCell (cell_of cell.now) (pass_of p)) team.passes.items)
        all.items) }
{
    teams.push(team)?;
    Ok(teams)
}

/// Returns so many teams, each of so many of these passes.
fn teams_of(
    alloc: Global,
    cell: &PassedCell,
    mut passes: Vec<Pass>,
    teams: usize,
    each: usize,
    calls: usize,
) -> Option<Vec<Team>>
    requires { All (λ p. IsOfCell (cell_of cell.now) (pass_of p)) passes.items }
    ensures { IfSome result (λ made. All (λ team. All (λ p. IsOfCell (cell_of cell.now) (pass_of p)) team.passes.items)
        made.items) }
{
    let mut made = Vec::new(alloc);
    for _ in 0..teams {
        let team = team_of(alloc, cell, &mut passes, each, calls)?;
        let Ok(more) = with_team(cell, made, team) else {
            return None;
        };
        made = more;
    }
    Some(made)
}

/// Returns the last of some teams.
fn next_team(cell: &PassedCell, teams: &mut Vec<Team>) -> Option<Team>
    requires { All (λ team. All (λ p. IsOfCell (cell_of cell.now) (pass_of p)) team.passes.items) teams.old.items }
    ensures one { IfSome result (λ team. All (λ p. IsOfCell (cell_of cell.now) (pass_of p)) team.passes.items) }
    ensures others { All (λ team. All (λ p. IsOfCell (cell_of cell.now) (pass_of p)) team.passes.items)
        teams.new.items }
    ensures fewer { IfSome result (λ team. vec_len teams.new < vec_len teams.old) }
{
    teams.pop()
}

/// Returns some passes, and more of the same cell.
fn with_more(cell: &PassedCell, mut passes: Vec<Pass>, mut more: Vec<Pass>) -> Option<Vec<Pass>>
    requires { All (λ p. IsOfCell (cell_of cell.now) (pass_of p)) passes.items × All (λ p. IsOfCell (cell_of cell.now) (pass_of p)) more.items }
    ensures { IfSome result (λ all. All (λ p. IsOfCell (cell_of cell.now) (pass_of p)) all.items) }
{
    match passes.append(&mut more) {
        Ok(()) => Some(passes),
        Err(_) => None,
    }
}

/// Returns all passes and receipts of some teams.
fn gather_teams(
    alloc: Global,
    cell: &PassedCell,
    mut teams: Vec<Team>,
) -> Option<(Vec<Pass>, Vec<Receipt>)>
    requires { All (λ team. All (λ p. IsOfCell (cell_of cell.now) (pass_of p)) team.passes.items) teams.items }
    ensures { IfSome result (λ r. All (λ p. IsOfCell (cell_of cell.now) (pass_of p)) r.0.items) }
{
    let mut passes = Vec::new(alloc);
    let mut receipts = Vec::new(alloc);
    while let Some(mut team) = next_team(cell, &mut teams) {
        passes = with_more(cell, passes, team.passes)?;
        receipts.append(&mut team.receipts).ok()?;
    }
    Some((passes, receipts))
}

/// Threads share a cell, each with a team's passes. That the cell may be shared is asked here, and nowhere else.
fn race_on<R: Threads + Wait + Sync>(
    rt: &R,
    alloc: Global,
    cell: &PassedCell,
    teams: Vec<Team>,
) -> Result<Vec<Team>, AllocError>
    requires { All (λ team. All (λ p. IsOfCell (cell_of cell.now) (pass_of p)) team.passes.items) teams.items }
    ensures { IfOk result (λ made. All (λ team. All (λ p. IsOfCell (cell_of cell.now) (pass_of p)) team.passes.items)
        made.items) }
{
    race(rt, alloc, cell, teams)
}

/// Threads make calls on a cell, each with so many passes and as many calls with each: the passes and the receipts.
pub(crate) fn race_calls<R: Threads + Wait + Sync>(
    rt: &R,
    alloc: Global,
    cell: &PassedCell,
    passes: Vec<Pass>,
    threads: usize,
    calls: usize,
) -> Option<(Vec<Pass>, Vec<Receipt>)>
    requires { All (λ p. IsOfCell (cell_of cell.now) (pass_of p)) passes.items }
    ensures { IfSome result (λ r. All (λ p. IsOfCell (cell_of cell.now) (pass_of p)) r.0.items) }
{
    let each = passes.len().checked_div(threads)?;
    let teams = teams_of(alloc, cell, passes, threads, each, calls)?;
    let Ok(teams) = race_on(rt, alloc, cell, teams) else {
        return None;
    };
    gather_teams(alloc, cell, teams)
}
