//! Settling books, receipts and MAPs with one another.

ghost use Rattle.std.specs.Prelude.{◌≡◌, ◌≢◌, ◌↔◌, ℕ, map, vec_len, Err, IfOk, OnOk, IfErr};
ghost use Rattle.operator_book.specs.ViewOf.{view_of};
ghost use Rattle.plant_workers.specs.declared.receipts.run_fault.RunFault.TheVariants.{NoMemory, Strayed, Short};
ghost use Rattle.plant_workers.specs.receipts.Settling.{IsSettled, IsFirstStrayed, IsFirstFault};

use crate::receipts::counting::first_short;
use crate::receipts::mapping::first_map_strayed;
use crate::receipts::receipt::Callers;
use crate::receipts::run_fault::RunFault;
use crate::receipts::settled::Settled;
use crate::receipts::straying::first_strayed;
use map_assembly::MapBytes;
use operator_book::Book;
use std::alloc::Global;

/// Settles books, the receipts of their callers (operator by operator) and MAPs with one another,
/// and hands them back.
///
/// Ok comes exactly where they are settled, out of memory apart; else the first fault. Takes time
/// linear in receipts and entries, and in the bytes of the MAPs times the operators. Where no
/// memory is left to count the receipts, it takes time in proportion to the receipts times the
/// entries.
pub fn settle(
    alloc: Global,
    books: Vec<Book>,
    receipts: Vec<Callers>,
    maps: Vec<MapBytes>,
) -> Result<Settled, RunFault>
    requires { vec_len books ≡ vec_len receipts }
    ensures same { IfOk result (λ s. (s.books ≡ books) × (s.receipts ≡ receipts) × (s.maps ≡ maps)) }
    // Each history is the merge of its callers' receipts, and each MAP gives every operator the frame of its own
    // history.
    ensures ok { OnOk result (IsSettled (map view_of books.items) receipts.items maps.items) }
    // Otherwise the first fault in the stated order, by operator and index.
    ensures fault { IfErr result (λ fault. fault ≢ NoMemory
        → IsFirstFault (map view_of books.items) receipts.items maps.items fault) }
    // A fault comes only of what is not settled. `MapStrayed` needs memory to be found.
    ensures not_settled { IfErr result (λ fault. fault ≢ NoMemory
        → ¬ IsSettled (map view_of books.items) receipts.items maps.items) }

    // A receipt that strays, and an entry that was not reported just once, are reported also if memory runs out.
    ensures strayed { (op index : ℕ) → (result ≡ Err (Strayed op index))
        ↔ IsFirstStrayed (map view_of books.items) receipts.items op index }
    // An entry that has no receipt, or two, is reported exactly in its case.
    ensures short { (op : ℕ) → (result ≡ Err (Short op))
        ↔ IsFirstFault (map view_of books.items) receipts.items maps.items (Short op) }
{
    if let Some((op, index)) = first_strayed(&books, &receipts) {
        return Err(RunFault::Strayed { op, index });
    }
    if let Some(op) = first_short(alloc, &books, &receipts) {
        return Err(RunFault::Short { op });
    }
    if let Some(frame) = first_map_strayed(alloc, &books, &maps)? {
        return Err(RunFault::MapStrayed { frame });
    }
    Ok(Settled {
        books,
        receipts,
        maps,
    })
}
