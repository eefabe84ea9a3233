//! What the flows of one operator have committed: a row for each flow, and the totals of the rows.
ghost use Rattle.std.specs.Prelude.{◌≡◌, ◌≢◌, ◌+◌, ◌<◌, ◌≤◌, ◌^◌, ◌↔◌, [], length, All, IsTrue, IsOk, IfOk, IfErr, OnOk, OnErr, IsOkUnless, IsNone, vec_len, vec_capacity};
ghost use Rattle.std.specs.List.{insert};
ghost use Rattle.std.specs.Ordering.{nat_cmp};
ghost use Rattle.std.specs.Map.{lookup, remove_entry, values_of};
ghost use Rattle.std.specs.BTreeMap.{insert_entry, is_at};
ghost use Rattle.admission.specs.Ledger.{HasRow, IsAscending, FitsU32, total_minislots, total_elements};
ghost use Rattle.admission.specs.Kept.{CanReplace};
ghost use Rattle.admission.specs.Place.{StandsAt, IsGap};

use crate::budget::Budget;
use crate::place::place_of;
use std::alloc::{AllocError, Global};
use std::marker::Model;

/// Why a row was not taken, changed or removed.
#[derive(Clone, Copy, Debug, PartialEq, Eq)]
pub enum LedgerFault {
    /// There is no room for more rows.
    Full,
    /// There is a row with this SFID.
    Twice,
    /// There is no row with this SFID.
    NotThere,
}

/// Which total would pass its limit; elements are tried first.
#[derive(Clone, Copy, Debug, PartialEq, Eq)]
pub enum Over {
    /// The elements of a MAP.
    Elements,
    /// The minislots of a frame.
    Minislots,
}

/// The sums of the rows.
#[derive(Clone, Copy, Debug)]
struct Totals {
    minislots: u64,
    elements: u64,
}

impl Totals {
    /// Returns the totals with the row `new` in place of the row `old`.
    fn replace_row(self, old: Budget, new: Budget) -> Totals
        requires { CanReplace self.minislots self.elements old }
        ensures minislots { result.minislots + old.minislots ≡ self.minislots + new.minislots }
        ensures elements { result.elements + old.elements ≡ self.elements + new.elements }
        ensures numbers { FitsU32 new }
    {
        Totals {
            minislots: self.minislots - u64::from(old.minislots) + u64::from(new.minislots),
            elements: self.elements - u64::from(old.elements) + u64::from(new.elements),
        }
    }

    /// Returns whether the totals stay within a limit.
    fn within(self, limit: Budget) -> Result<(), Over>
        ensures elements { (result ≡ Err Over.Elements) ↔ (limit.elements < self.elements) }
        ensures minislots { (result ≡ Err Over.Minislots)
            ↔ ((self.elements ≤ limit.elements) × (limit.minislots < self.minislots)) }
        ensures ok { IsOk result ↔ ((self.elements ≤ limit.elements) × (self.minislots ≤ limit.minislots)) }
    {
        if self.elements > u64::from(limit.elements) {
            return Err(Over::Elements);
        }
        if self.minislots > u64::from(limit.minislots) {
            return Err(Over::Minislots);
        }
        Ok(())
    }
}

/// A row for each flow, found by its SFID, and the totals of all rows, kept step by step.
#[derive(Debug, Drop)]
pub struct Ledger {
    room: u32,
    rows: Vec<(u32, Budget)>,
    totals: Totals,
}

impl Model for Ledger {
    ghost use Rattle.std.specs.Prelude.{vec_capacity};
    ghost use Rattle.admission.specs.Ledger.{LedgerView};
    ghost use Rattle.admission.specs.Kept.{IsLedger};

    ghost Value = { LedgerView };

    ghost view = { λ ledger. record { room = ledger.room; rows = ledger.rows.items } };

    ghost invariant = { λ ledger. IsLedger ledger.room ledger.rows.items (vec_capacity ledger.rows) ledger.totals.minislots ledger.totals.elements };
}

impl Ledger {
    /// Creates an empty ledger with room for `rows` rows. No other call takes memory.
    pub fn new(alloc: Global, rows: u32) -> Result<Ledger, AllocError>
        ensures { IfOk result (λ ledger. ledger ≡ record { room = rows; rows = [] }) }
    {
        Ok(Ledger {
            room: rows,
            rows: Vec::with_capacity(alloc, rows as usize)?,
            totals: Totals {
                minislots: 0,
                elements: 0,
            },
        })
    }

    /// Adds a row for a flow that has none.
    ///
    /// Faults, in this order: `Full`, `Twice`. Each leaves the ledger unchanged.
    pub fn add(&mut self, sfid: u32, budget: Budget) -> Result<(), LedgerFault>
        ensures ok { OnOk result (self.new
            ≡ record self.old { rows = insert_entry nat_cmp self.old.rows sfid budget }) }
        // There was room, and no row of this SFID.
        ensures was_free { OnOk result ((length self.old.rows < self.old.room)
            × IsNone (lookup (is_at (nat_cmp sfid)) self.old.rows)) }

        // Each error comes exactly in its case: no room, then a row that is there.
        ensures full { (result ≡ Err LedgerFault.Full) ↔ (length self.old.rows ≡ self.old.room) }
        ensures twice { (result ≡ Err LedgerFault.Twice)
            ↔ ((length self.old.rows < self.old.room) × HasRow self.old.rows sfid) }
        ensures only { IfErr result (λ fault. fault ≢ LedgerFault.NotThere) }
        ensures err { OnErr result (self.new ≡ self.old) }
    {
        if self.is_full() {
            return Err(LedgerFault::Full);
        }
        let Err(place) = self.place(sfid) else {
            return Err(LedgerFault::Twice);
        };
        self.totals = self.totals.replace_row(Budget::NOTHING, budget);
        insert_row(&mut self.rows, place, (sfid, budget));
        Ok(())
    }

    /// Puts another budget in place of the one of a flow.
    ///
    /// The fault is `NotThere`, and leaves the ledger unchanged.
    pub fn change(&mut self, sfid: u32, budget: Budget) -> Result<(), LedgerFault>
        ensures ok { OnOk result (self.new
            ≡ record self.old { rows = insert_entry nat_cmp self.old.rows sfid budget }) }
        ensures was_there { OnOk result (HasRow self.old.rows sfid) }

        // The error comes exactly if there is no row.
        ensures not_there { (result ≡ Err LedgerFault.NotThere) ↔ IsNone (lookup (is_at (nat_cmp sfid)) self.old.rows) }
        ensures only { IsOkUnless result LedgerFault.NotThere }
        ensures err { OnErr result (self.new ≡ self.old) }
    {
        let Ok(place) = self.place(sfid) else {
            return Err(LedgerFault::NotThere);
        };
        let old = self.rows[place].1;
        self.totals = self.totals.replace_row(old, budget);
        self.rows[place] = (sfid, budget);
        Ok(())
    }

    /// Removes the row of a flow.
    ///
    /// The fault is `NotThere`, and leaves the ledger unchanged.
    pub fn remove(&mut self, sfid: u32) -> Result<(), LedgerFault>
        ensures ok { OnOk result (self.new
            ≡ record self.old { rows = remove_entry (is_at (nat_cmp sfid)) self.old.rows }) }
        ensures was_there { OnOk result (HasRow self.old.rows sfid) }

        // The error comes exactly if there is no row.
        ensures not_there { (result ≡ Err LedgerFault.NotThere) ↔ IsNone (lookup (is_at (nat_cmp sfid)) self.old.rows) }
        ensures only { IsOkUnless result LedgerFault.NotThere }
        ensures err { OnErr result (self.new ≡ self.old) }
    {
        let Ok(place) = self.place(sfid) else {
            return Err(LedgerFault::NotThere);
        };
        let (_, old) = self.rows.remove(place);
        self.totals = self.totals.replace_row(old, Budget::NOTHING);
        Ok(())
    }

    /// Returns whether the totals, with this row in place of the one of `sfid`, if any, stay within
    /// `limit`.
    pub fn fits(&self, limit: Budget, sfid: u32, budget: Budget) -> Result<(), Over>
        // Refused so exactly if more elements would be committed than the limit.
        ensures elements { let after = insert_entry nat_cmp self.now.rows sfid budget in (result ≡ Err Over.Elements)
            ↔ (limit.elements < total_elements after) }
        // Refused so exactly if more minislots would be committed than the limit.
        ensures minislots { let after = insert_entry nat_cmp self.now.rows sfid budget in (result
            ≡ Err Over.Minislots) ↔ ((total_elements after ≤ limit.elements) × (limit.minislots < total_minislots after)) }
        ensures ok { let after = insert_entry nat_cmp self.now.rows sfid budget in IsOk result
            ↔ ((total_elements after ≤ limit.elements) × (total_minislots after ≤ limit.minislots)) }
    {
        let old = self.get(sfid).unwrap_or(Budget::NOTHING);
        self.totals.replace_row(old, budget).within(limit)
    }

    /// Returns the sum of all rows' minislots.
    pub fn total_minislots(&self) -> u64
        ensures { result ≡ total_minislots self.now.rows }
    {
        self.totals.minislots
    }

    /// Returns the sum of all rows' elements.
    pub fn total_elements(&self) -> u64
        ensures { result ≡ total_elements self.now.rows }
    {
        self.totals.elements
    }

    /// Returns the number of rows.
    pub fn len(&self) -> u32
        ensures { result ≡ length self.now.rows }
    {
        self.rows.len() as u32
    }

    /// Returns whether there is no row.
    pub fn is_empty(&self) -> bool
        ensures { IsTrue result ↔ (self.now.rows ≡ []) }
    {
        self.rows.is_empty()
    }

    /// Returns whether there is no room for more rows.
    pub fn is_full(&self) -> bool
        ensures { IsTrue result ↔ (length self.now.rows ≡ self.now.room) }
    {
        self.len() == self.room
    }

    /// Returns the budget of a flow, if it has a row.
    pub fn get(&self, sfid: u32) -> Option<Budget>
        ensures { result ≡ lookup (is_at (nat_cmp sfid)) self.now.rows }
    {
        match self.place(sfid) {
            Ok(place) => Some(self.rows[place].1),
            Err(_) => None,
        }
    }

    /// States what every ledger keeps, for a caller's proof: the rows ascend by SFID, there is room
    /// for each, and their numbers are those of a `u32`. Does nothing.
    pub fn always(&self)
        ensures ascending { IsAscending self.now.rows }
        ensures within { length self.now.rows ≤ self.now.room }
        ensures numbers { All FitsU32 (values_of self.now.rows) }
    {
        // For the proof: what the type keeps, which is known where a field is read.
        let _ = &self.rows;
    }

    /// Returns where the row of this SFID exists, or where a new one would go.
    fn place(&self, sfid: u32) -> Result<usize, usize>
        ensures found { IfOk result (StandsAt self.now.rows sfid) }
        ensures absent { IfErr result (IsGap self.now.rows sfid) }
        ensures there { OnOk result (HasRow self.now.rows sfid) }
        ensures free { OnErr result (IsNone (lookup (is_at (nat_cmp sfid)) self.now.rows)) }
    {
        place_of(&self.rows, sfid)
    }
}

/// Puts a row at a place, into room that is there.
fn insert_row(rows: &mut Vec<(u32, Budget)>, place: usize, row: (u32, Budget))
    requires in_range { place ≤ vec_len rows.old }
    requires room { vec_len rows.old < vec_capacity rows.old }
    ensures items { rows.new.items ≡ insert rows.old.items place row }
    ensures capacity { vec_capacity rows.old ≤ vec_capacity rows.new }
{
    match rows.insert(place, row) {
        Ok(()) => {}
        Err(_) => unreachable!(),
    }
}
