//! Why a book refuses an action.

ghost use Rattle.std.specs.Prelude.{◌≡◌, IfSome};
ghost use Rattle.operator_book.specs.ViewOf.{view_of};
ghost use Rattle.plant_workers.specs.cell_state.Refusing.{refusal_of, IsActionFault};

use operator_book::{Book, BookFault};
use operator_model::Action;
use plant::is_listed;

/// Returns why a book refuses an action, apart from running out of memory. Takes no memory.
pub(crate) fn refusal_of(book: &Book, action: &Action) -> Option<BookFault>
    ensures value { result ≡ refusal_of (view_of book.now) action.now }
    ensures of_action { IfSome result (IsActionFault action.now) }
{
    match action {
        Action::Arrive { modem, heard: _ } => {
            if is_listed(*modem, book.row().get_fields().modems.as_slice()) {
                None
            } else {
                Some(BookFault::NotMine { modem: *modem })
            }
        }
        Action::Work => None,
        Action::Tick => {
            if book.is_spent(action) {
                Some(BookFault::FramesSpent)
            } else {
                None
            }
        }
        Action::Reslice { from, row } => match book.offer(*from, *row) {
            Ok(()) => None,
            Err(unfit) => Some(BookFault::Unfit(unfit)),
        },
    }
}
