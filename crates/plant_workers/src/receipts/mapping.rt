//! Whether each MAP gives every operator its own frame.

ghost use Rattle.std.specs.Prelude.{◌≡◌, ◌↔◌, List, map, All, MatchOption, IfOk, IsTrue};
ghost use Rattle.std.specs.List.{AllZip};
ghost use Rattle.operator_model.specs.Replay.{BookView};
ghost use Rattle.operator_book.specs.ViewOf.{view_of};
ghost use Rattle.plant_workers.specs.receipts.OwnParts.{IsFramePart, HasOwnParts};
ghost use Rattle.plant_workers.specs.receipts.Framing.{AreFramesOf};
ghost use Rattle.plant_workers.specs.receipts.Settling.{IsFirstMapStrayed};

use crate::receipts::own_frames::{OwnFrames, frames_of_books, part_of_number};
use crate::receipts::own_part::is_own_part;
use map_assembly::{MapBytes, MapFault, MapView, read_map};
use operator_book::Book;
use std::alloc::{AllocError, Global};

/// Returns whether what a MAP says to an operator is its own frame of the MAP's number.
fn has_own_part(
    alloc: Global,
    own: &OwnFrames,
    made: &MapBytes,
    view: &MapView,
) -> Result<bool, AllocError>
    requires { (book : BookView) × AreFramesOf own.now book }
    ensures { (book : BookView) → AreFramesOf own.now book
        → IfOk result (λ has. IsTrue has ↔ IsFramePart made.now view.now book) }
{
    match part_of_number(own.frames.as_slice(), made.frame) {
        Some(part) => is_own_part(alloc, view, &own.sids, part),
        None => Ok(false),
    }
}

/// Returns whether what a MAP says to each operator is its own frame of the MAP's number.
fn are_own_parts(
    alloc: Global,
    all: &[OwnFrames],
    made: &MapBytes,
    view: &MapView,
) -> Result<bool, AllocError>
    requires { (books : List BookView) × AllZip AreFramesOf all.now books }
    ensures { (books : List BookView) → AllZip AreFramesOf all.now books
        → IfOk result (λ are. IsTrue are ↔ All (IsFramePart made.now view.now) books) }
{
    for own in all {
        if !has_own_part(alloc, own, made, view)? {
            return Ok(false);
        }
    }
    Ok(true)
}

/// Returns whether a MAP was not read for out of memory.
fn is_want_of_memory(fault: MapFault) -> bool
    ensures { IsTrue result ↔ (fault ≡ MapFault.NoMemory) }
{
    match fault {
        MapFault::NoMemory => true,
        MapFault::Short
        | MapFault::Count
        | MapFault::Backward { at: _ }
        | MapFault::NoNull
        | MapFault::AfterNull { at: _ } => false,
    }
}

/// Returns whether the bytes of a MAP can be read, and what they say to each operator is its own
/// frame of the MAP's number.
fn has_own_parts(alloc: Global, all: &[OwnFrames], made: &MapBytes) -> Result<bool, AllocError>
    requires { (books : List BookView) × AllZip AreFramesOf all.now books }
    ensures { (books : List BookView) → AllZip AreFramesOf all.now books
        → IfOk result (λ has. IsTrue has ↔ HasOwnParts books made.now) }
{
    match read_map(alloc, made.bytes.as_slice()) {
        Ok(view) => are_own_parts(alloc, all, made, &view),
        Err(fault) => {
            if is_want_of_memory(fault) {
                Err(AllocError)
            } else {
                Ok(false)
            }
        }
    }
}

/// Returns the frame of the first MAP that does not give every operator its own frame.
pub(crate) fn first_map_strayed(
    alloc: Global,
    books: &[Book],
    maps: &[MapBytes],
) -> Result<Option<u32>, AllocError>
    ensures { IfOk result (λ first. MatchOption first (All (HasOwnParts (map view_of books.now)) maps.now)
        (IsFirstMapStrayed (map view_of books.now) maps.now)) }
{
    let all = frames_of_books(alloc, books)?;
    for made in maps {
        if !has_own_parts(alloc, &all, made)? {
            return Ok(Some(made.frame));
        }
    }
    Ok(None)
}
