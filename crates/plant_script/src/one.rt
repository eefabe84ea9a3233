//! The command `one`: messages to outputs, outputs to text.

ghost use Rattle.std.specs.Prelude.{◌≡◌, ◌++◌, [], ◌∷◌, IfOk, OnOk};
ghost use Rattle.operator_model.specs.State.{operator};
ghost use Rattle.operator_model.specs.Machine.{own_step, own_run, IsAllowed};
ghost use Rattle.operator_model.specs.Replay.{opened_book};
ghost use Rattle.plant_script.specs.OperatorA.{row_a, consts_a};
ghost use Rattle.plant_script.specs.One.{sent_actions, outputs_of, line_of, text_of_outputs};
ghost use Rattle.grant_policy.specs.declared.policy.Policy.TheVariants.{Strict};
ghost use Rattle.operator_book.specs.ViewOf.{view_of};
ghost use Rattle.plant_script.specs.View.{IsOfA};

use crate::operator_a::{consts_a, first_modem, row_a};
use grant_policy::{Policy, RankInput, Ranking, rank_by};
use hex::encode_upper;
use line_service::cause_name;
use operator_book::{Action, Book, BookFault, Heard, OpenFault, Output};
use std::alloc::{AllocError, Global};
use tlv24::Bytes;

/// Appends the line of an output.
fn put_line(alloc: Global, text: &mut Vec<u8>, output: &Output) -> Result<(), AllocError>
    ensures { OnOk result (text.new.items ≡ text.old.items ++ line_of output.now) }
{
    match output {
        Output::Reply { modem: _, bytes } => {
            let digits = encode_upper(alloc, bytes.as_slice())?;
            text.extend_from_slice(digits.as_bytes())?;
        }
        Output::Silent { modem: _, cause } => {
            text.extend_from_slice(b"S ")?;
            text.extend_from_slice(cause_name(*cause).as_bytes())?;
        }
        // Nothing ticks here.
        Output::Frame {
            number: _,
            elements: _,
        } => return Ok(()),
    }
    text.extend_from_slice(b"\n")
}

/// Appends the lines of outputs.
fn put_lines(alloc: Global, text: &mut Vec<u8>, outputs: &[Output]) -> Result<(), AllocError>
    ensures { OnOk result (text.new.items ≡ text.old.items ++ text_of_outputs outputs.now) }
{
    for output in outputs {
        put_line(alloc, text, output)?;
    }
    Ok(())
}

/// Performs an action on operator A's book, and appends the lines of its outputs.
fn put_action(
    alloc: Global,
    book: &mut Book,
    text: &mut Vec<u8>,
    action: Action,
) -> Result<(), AllocError>
    requires of_a { IsOfA (view_of book.old) }
    requires allowed { IsAllowed (operator consts_a row_a (view_of book.old).state) action }
    ensures of_a { OnOk result (IsOfA (view_of book.new)) }
    ensures state { OnOk result ((view_of book.new).state
        ≡ (own_step (operator consts_a row_a (view_of book.old).state) action).state) }
    ensures text { OnOk result (text.new.items ≡ text.old.items
        ++ text_of_outputs (own_step (operator consts_a row_a (view_of book.old).state) action).outputs) }
{
    match book.act(alloc, action) {
        Ok(outputs) => put_lines(alloc, text, outputs.as_slice()),
        Err(BookFault::NoMemory) => Err(AllocError),
        Err(BookFault::NotMine { modem: _ }) => unreachable!(),
        Err(BookFault::FramesSpent) => unreachable!(),
        Err(BookFault::Unfit(_)) => unreachable!(),
    }
}

/// Performs the arrival and the handling of a message of the first modem, and appends the lines of its outputs.
fn put_message(
    alloc: Global,
    book: &mut Book,
    text: &mut Vec<u8>,
    message: &Bytes,
) -> Result<(), AllocError>
    requires { IsOfA (view_of book.old) }
    ensures of_a { OnOk result (IsOfA (view_of book.new)) }
    ensures state { OnOk result ((view_of book.new).state
        ≡ (own_run (operator consts_a row_a (view_of book.old).state) (sent_actions (message.now ∷ []))).state) }
    ensures text { OnOk result (text.new.items ≡ text.old.items
        ++ text_of_outputs (own_run (operator consts_a row_a (view_of book.old).state) (sent_actions (message.now ∷ []))).outputs) }
{
    let heard = Heard::Message(message.copy(alloc)?);
    let modem = first_modem();
    put_action(alloc, book, text, Action::Arrive { modem, heard })?;
    put_action(alloc, book, text, Action::Work)
}

/// Returns operator A's book as it is opened.
fn book_of(alloc: Global, ranking: Ranking) -> Result<Book, AllocError>
    requires { ranking.policy ≡ Strict }
    ensures { IfOk result (λ book. view_of book ≡ opened_book consts_a row_a) }
{
    let row = row_a(alloc)?;
    match Book::open(alloc, &row, &consts_a(alloc), ranking) {
        Ok(book) => Ok(book),
        Err(OpenFault::NoMemory) => Err(AllocError),
        Err(OpenFault::PolicyMismatch) => unreachable!(),
    }
}

/// Returns the text of all outputs that messages of the first modem get of operator A's book.
pub fn text_of_outputs(alloc: Global, messages: &[Bytes]) -> Result<Vec<u8>, AllocError>
    ensures { IfOk result (λ text. text.items ≡ text_of_outputs (outputs_of messages.now)) }
{
    let ranking = Ranking::new(
        Policy::Strict,
        Box::new(alloc, |input: RankInput| -> u8 {
            rank_by(Policy::Strict, &input)
        })?,
    );
    let mut book = book_of(alloc, ranking)?;
    let mut text = Vec::new(alloc);
    for message in messages {
        put_message(alloc, &mut book, &mut text, message)?;
    }
    Ok(text)
}
