//! The lines of a script, and the steps that they say.

ghost use Rattle.std.specs.Prelude.{◌≡◌, [], ◌∷◌, map, Err, IfOk, IfErr};
ghost use Rattle.std.specs.List.{position_from};
ghost use Rattle.lists.specs.Results.{result_map, Gives};
ghost use Rattle.line_service.specs.declared.script.fields.FieldError.{FieldError};
ghost use Rattle.line_service.specs.declared.script.fields.FieldFault.TheVariants.{Invalid, NoMemory};
ghost use Rattle.line_service.specs.script.Fields.{field_cause, behind};
ghost use Rattle.line_service.specs.script.Lines.{line_fields};
ghost use Rattle.line_service.specs.script.Script.{ArePlaced, sender_in, is_named, operator_in, heard_steps, message_steps, request_in, request_steps, tick_steps, all_ticks, ticked_steps, share_in, shares_after, shares_in, resliced_steps, steps_in, line_steps, steps_after, steps_of};
ghost use Rattle.line_service.specs.script.Senders.{address_error, alone_error, one_error, sender_first, three_error, two_error};
ghost use Rattle.line_service.specs.script.GivesSteps.{GivesSteps};

use crate::script::fields::{
    FieldError, FieldFault, NumberName, halves, message_bytes, number_in, short_in, three_of,
    word_and_rest,
};
use crate::script::lines::{LineFault, part, parts_of, put_parts};
use crate::script::unhex::decode_into;
use dsx_messages::Modem;
use operator_model::{Heard, SliceRow};
use plant::{Op, OperatorRow, Plant, Routes, Routing};
use run_model::{SliceRows, Step};
use std::alloc::{AllocError, Global};

/// A step, and the number of the line that says it; the first line has number 1.
#[derive(Debug, Drop)]
pub struct LineStep {
    pub number: u64,
    pub step: Step,
    /// Where something arrives, the operator that lists its modem, which was looked up when the line was read. `None` for any
    /// other step.
    pub place: Option<Op>,
}

/// A modem, and the operator that lists it.
#[derive(Clone, Copy, Debug, PartialEq, Eq)]
pub struct Sender {
    pub modem: Modem,
    pub op: Op,
}

/// Returns a modem of the plant by its address.
#[tactic(auto, unfolding(crate::specs::script::Script::sender_in))]
#[inline(always)]
fn sender_in<P: Routing>(routes: &mut P, field: &[u8]) -> Result<Sender, FieldError>
    ensures value { result ≡ sender_in (P.plant_of routes.old) field.now }
    ensures same { routes.new ≡ routes.old }
{
    let mut address = [0u8; 6];
    if field.len() != 12 || !decode_into(field, &mut address) {
        return Err(FieldError::Address);
    }
    let modem = Modem(address);
    match routes.place_of(modem) {
        Some(op) => Ok(Sender { modem, op }),
        None => Err(FieldError::UnknownModem { modem }),
    }
}

/// Returns the error of a line whose first field has not the length of an address.
fn address_error(line: &[u8]) -> FieldError
    ensures { result ≡ address_error (line_fields line.now) }
{
    match halves(line) {
        None => FieldError::FieldCount,
        Some(_more) => FieldError::Address,
    }
}

/// Returns the error of a field of a line, unless the line has not just one field: then that is
/// wrong first.
fn one_error(line: &[u8], error: FieldError) -> FieldError
    ensures { result ≡ one_error (line_fields line.now) error }
{
    match halves(line) {
        None => error,
        Some(_more) => FieldError::FieldCount,
    }
}

/// Returns the error of a field of a line, unless the line has not just two fields.
fn two_error(line: &[u8], error: FieldError) -> FieldError
    ensures { result ≡ two_error (line_fields line.now) error }
{
    match halves(line) {
        None => FieldError::FieldCount,
        Some((_first, rest)) => one_error(rest, error),
    }
}

/// Returns the error of a field of a line, unless the line has not just three fields.
fn three_error(line: &[u8], error: FieldError) -> FieldError
    ensures { result ≡ three_error (line_fields line.now) error }
{
    match halves(line) {
        None => FieldError::FieldCount,
        Some((_first, rest)) => two_error(rest, error),
    }
}

/// Returns the sender in a line's first field, and what is after it. An address has 12 digits: no
/// space is searched for.
#[tactic(auto, using(crate::proofs::ScriptLemmas::FirstFields::sender_lacks, crate::proofs::ScriptLemmas::FirstFields::sender_unseparated))]
#[inline(always)]
fn sender_first<'a, P: Routing>(
    routes: &mut P,
    line: &'a [u8],
) -> Result<(Sender, &'a [u8]), FieldError>
    ensures value { result_map (λ p. (p.0, line_fields p.1.now)) result ≡ sender_first (P.plant_of routes.old) (line_fields line.now) }
    ensures same { routes.new ≡ routes.old }
{
    if line.len() < 13 || line[12] != b' ' {
        return Err(address_error(line));
    }
    match sender_in(routes, part(line, 0, 12)) {
        Ok(sender) => Ok((sender, part(line, 13, line.len()))),
        Err(error) => Err(error),
    }
}

/// Returns whether an operator has this name.
fn is_named(row: &OperatorRow, name: &[u8]) -> bool
    ensures { result ≡ is_named name.now row.now }
{
    row.get_fields().name.as_slice() == name
}

/// Returns the first operator of this name.
pub fn place_of(rows: &[OperatorRow], name: &[u8]) -> Option<Op>
    ensures { result ≡ position_from (is_named name.now) 0 rows.now }
{
    rows.iter().position(|row| is_named(row, name))
}

/// Returns an operator of the plant by its name.
fn operator_in(plant: &Plant, field: &[u8]) -> Result<Op, FieldError>
    ensures { result ≡ operator_in plant.now field.now }
{
    match place_of(plant.rows(), field) {
        Some(op) => Ok(op),
        None => Err(FieldError::UnknownOperator),
    }
}

/// Appends the steps of what is received of a modem.
#[inline(always)]
fn put_heard(
    number: u64,
    sender: Sender,
    heard: Heard,
    steps: &mut Vec<LineStep>,
) -> Result<(), FieldFault>
    ensures said { Gives field_cause (λ _. steps.new.items) result (behind steps.old.items (Ok (heard_steps number sender heard))) }
    ensures memory { IfErr result (λ fault. fault ≡ NoMemory) }
{
    steps.reserve(2)?;
    let modem = sender.modem;
    steps.push_reserved(LineStep {
        number,
        step: Step::Arrive { modem, heard },
        place: Some(sender.op),
    });
    steps.push_reserved(LineStep {
        number,
        step: Step::Work { op: sender.op },
        place: None,
    });
    Ok(())
}

/// Appends the steps of a message.
#[tactic(auto, using(crate::proofs::ScriptLemmas::FirstFields::message_stop, crate::proofs::ScriptLemmas::FirstFields::message_read, crate::proofs::ScriptLemmas::FirstFields::message_unread))]
#[inline(always)]
fn put_message<P: Routing>(
    alloc: Global,
    routes: &mut P,
    number: u64,
    line: &[u8],
    steps: &mut Vec<LineStep>,
) -> Result<(), FieldFault>
    ensures said { Gives field_cause (λ _. steps.new.items) result
        (behind steps.old.items (message_steps (P.plant_of routes.old) number (line_fields line.now))) }
    ensures same { routes.new ≡ routes.old }
    ensures unsaid { (error : FieldError) → result ≡ Err (Invalid error) → steps.new.items ≡ steps.old.items }
{
    match sender_first(routes, line) {
        Err(error) => Err(FieldFault::Invalid(two_error(line, error))),
        Ok((sender, message)) => match message_bytes(alloc, message)? {
            Some(bytes) => put_heard(number, sender, Heard::Message(bytes), steps),
            None => {
                let error = one_error(message, FieldError::Hexadecimal);
                Err(FieldFault::Invalid(error))
            }
        },
    }
}

/// Returns a request of these numbers.
#[inline(always)]
fn request_in(sid: &[u8], minislots: &[u8]) -> Result<Heard, FieldError>
    ensures { result ≡ request_in sid.now minislots.now }
{
    let sid = short_in(2, NumberName::Sid, sid)?;
    let minislots = short_in(3, NumberName::Minislots, minislots)?;
    Ok(Heard::Request { sid, minislots })
}

/// Appends the steps of a request for minislots.
#[tactic(auto, using(crate::proofs::ScriptLemmas::FirstFields::request_stop, crate::proofs::ScriptLemmas::FirstFields::request_alone, crate::proofs::ScriptLemmas::FirstFields::request_unread, crate::proofs::ScriptLemmas::FirstFields::request_read))]
#[inline(always)]
fn put_request<P: Routing>(
    routes: &mut P,
    number: u64,
    line: &[u8],
    steps: &mut Vec<LineStep>,
) -> Result<(), FieldFault>
    ensures said { Gives field_cause (λ _. steps.new.items) result
        (behind steps.old.items (request_steps (P.plant_of routes.old) number (line_fields line.now))) }
    ensures same { routes.new ≡ routes.old }
    ensures unsaid { (error : FieldError) → result ≡ Err (Invalid error) → steps.new.items ≡ steps.old.items }
{
    let (sender, numbers) = match sender_first(routes, line) {
        Ok(first) => first,
        Err(error) => return Err(FieldFault::Invalid(three_error(line, error))),
    };
    let Some((sid, minislots)) = halves(numbers) else {
        return Err(FieldFault::Invalid(FieldError::FieldCount));
    };
    match request_in(sid, minislots) {
        Ok(request) => put_heard(number, sender, request, steps),
        Err(error) => Err(FieldFault::Invalid(one_error(minislots, error))),
    }
}

/// Appends the steps of one operator's tick.
fn put_tick(number: u64, op: Op, steps: &mut Vec<LineStep>) -> Result<(), FieldFault>
    ensures said { Gives field_cause (λ _. steps.new.items) result (behind steps.old.items (Ok (tick_steps number op))) }
    ensures memory { IfErr result (λ fault. fault ≡ NoMemory) }
{
    steps.push(LineStep {
        number,
        step: Step::Tick { op },
        place: None,
    })?;
    steps.push(LineStep {
        number,
        step: Step::Collect { op },
        place: None,
    })?;
    Ok(())
}

/// Appends the steps of a tick of each operator in order.
fn put_all_ticks(
    number: u64,
    rows: &[OperatorRow],
    steps: &mut Vec<LineStep>,
) -> Result<(), FieldFault>
    ensures said { Gives field_cause (λ _. steps.new.items) result (behind steps.old.items (Ok (all_ticks number rows.now 0))) }
    ensures memory { IfErr result (λ fault. fault ≡ NoMemory) }
{
    steps.reserve(rows.len().saturating_mul(2))?;
    for op in 0..rows.len() {
        put_tick(number, op, steps)?;
    }
    Ok(())
}

/// Appends the steps of an operator's tick by its name.
#[tactic(auto, unfolding(crate::specs::script::Script::ticked_steps))]
fn put_ticked(
    plant: &Plant,
    number: u64,
    line: &[u8],
    steps: &mut Vec<LineStep>,
) -> Result<(), FieldFault>
    ensures said { Gives field_cause (λ _. steps.new.items) result
        (behind steps.old.items (ticked_steps plant.now number (line_fields line.now))) }
    ensures unsaid { (error : FieldError) → result ≡ Err (Invalid error) → steps.new.items ≡ steps.old.items }
{
    match halves(line) {
        None => {
            let op = operator_in(plant, line)?;
            put_tick(number, op, steps)
        }
        Some(_more) => Err(FieldFault::Invalid(FieldError::FieldCount)),
    }
}

/// Returns the slice and the budget in a field.
#[tactic(auto, unfolding(crate::specs::script::Script::share_in))]
fn share_in(alloc: Global, field: usize, text: &[u8]) -> Result<SliceRow, FieldFault>
    ensures { Gives field_cause (λ row. row) result (share_in field text.now) }
{
    let parts = parts_of(alloc, b'/', text)?;
    let error = FieldError::SliceParts { field };
    let (start, length, budget) = three_of(error, parts.as_slice())?;
    Ok(SliceRow {
        start: short_in(field, NumberName::Start, start)?,
        length: short_in(field, NumberName::Length, length)?,
        budget: short_in(field, NumberName::Budget, budget)?,
    })
}

/// Returns the slices and budgets of the fields from 2 on.
fn shares_of(alloc: Global, fields: &[&[u8]]) -> Result<SliceRows, FieldFault>
    ensures { Gives field_cause (λ rows. rows) result (shares_after [] (map (λ field. field.now) fields.now)) }
{
    let mut rows = Vec::new(alloc);
    for field in fields {
        match share_in(alloc, rows.as_slice().len() + 2, field) {
            Ok(row) => rows.push(row)?,
            Err(fault) => return Err(fault),
        }
    }
    Ok(SliceRows::from_vec(rows))
}

/// Returns a slice and a budget for each operator.
fn shares_in(alloc: Global, plant: &Plant, fields: &[&[u8]]) -> Result<SliceRows, FieldFault>
    ensures { Gives field_cause (λ rows. rows) result (shares_in plant.now (map (λ field. field.now) fields.now)) }
{
    if fields.len() == plant.rows().len() {
        shares_of(alloc, fields)
    } else {
        Err(FieldFault::Invalid(FieldError::FieldCount))
    }
}

/// Appends the step of a slice change.
#[tactic(auto, unfolding(crate::specs::script::Script::resliced_steps))]
fn put_resliced(
    alloc: Global,
    plant: &Plant,
    number: u64,
    fields: &[&[u8]],
    steps: &mut Vec<LineStep>,
) -> Result<(), FieldFault>
    ensures said { Gives field_cause (λ _. steps.new.items) result
        (behind steps.old.items (resliced_steps plant.now number (map (λ field. field.now) fields.now))) }
    ensures unsaid { (error : FieldError) → result ≡ Err (Invalid error) → steps.new.items ≡ steps.old.items }
{
    let [first, fields @ ..] = fields else {
        return Err(FieldFault::Invalid(FieldError::FieldCount));
    };
    let from = number_in(1, NumberName::Frame, 10, u32::MAX, first)?;
    let rows = shares_in(alloc, plant, fields)?;
    steps.push(LineStep {
        number,
        step: Step::Reslice { from, rows },
        place: None,
    })?;
    Ok(())
}

/// Returns the error of a line of one field that needs more: of an unknown command, that it is.
fn alone_error(word: &[u8]) -> FieldError
    ensures { result ≡ alone_error word.now }
{
    if word == b"M".as_slice() || word == b"Q".as_slice() || word == b"Z".as_slice() {
        FieldError::FieldCount
    } else {
        FieldError::UnknownCommand
    }
}

/// Appends the steps of a line of one field.
fn put_alone(
    plant: &Plant,
    number: u64,
    word: &[u8],
    steps: &mut Vec<LineStep>,
) -> Result<(), FieldFault>
    ensures said { Gives field_cause (λ _. steps.new.items) result
        (behind steps.old.items (steps_in plant.now number (word.now ∷ []))) }
    ensures unsaid { (error : FieldError) → result ≡ Err (Invalid error) → steps.new.items ≡ steps.old.items }
{
    if word == b"T".as_slice() {
        put_all_ticks(number, plant.rows(), steps)
    } else {
        Err(FieldFault::Invalid(alone_error(word)))
    }
}

/// Appends the steps of a line of this first field and these other ones.
#[tactic(auto, unfolding(crate::specs::script::Script::steps_in))]
#[inline(always)]
fn put_word<'a, P: Routing>(
    alloc: Global,
    routes: &mut P,
    number: u64,
    word: &[u8],
    line: &'a [u8],
    fields: &mut Vec<&'a [u8]>,
    steps: &mut Vec<LineStep>,
) -> Result<(), FieldFault>
    ensures said { Gives field_cause (λ _. steps.new.items) result
        (behind steps.old.items (steps_in (P.plant_of routes.old) number (word.now ∷ line_fields line.now))) }
    ensures same { routes.new ≡ routes.old }
    ensures unsaid { (error : FieldError) → result ≡ Err (Invalid error) → steps.new.items ≡ steps.old.items }
{
    match word {
        [b'M'] => put_message(alloc, routes, number, line, steps),
        [b'Q'] => put_request(routes, number, line, steps),
        [b'T'] => put_ticked(routes.plant(), number, line, steps),
        [b'Z'] => {
            put_parts(b' ', line, fields)?;
            put_resliced(alloc, routes.plant(), number, fields.as_slice(), steps)
        }
        _ => Err(FieldFault::Invalid(FieldError::UnknownCommand)),
    }
}

/// Appends the steps of a line. An empty line has none. The operator of a line's modem is asked for once. `fields` is room for the
/// parts of the line, and is used again for the next one.
#[tactic(auto, unfolding(crate::specs::script::Script::line_steps))]
#[inline(always)]
pub fn put_line<'a, P: Routing>(
    alloc: Global,
    routes: &mut P,
    number: u64,
    line: &'a [u8],
    fields: &mut Vec<&'a [u8]>,
    steps: &mut Vec<LineStep>,
) -> Result<(), FieldFault>
    // The steps are added exactly if the line says them. Otherwise the fault is the first thing wrong, from the left.
    ensures said { Gives field_cause (λ _. steps.new.items) result (behind steps.old.items (line_steps (P.plant_of routes.old) number line.now)) }
    ensures same { routes.new ≡ routes.old }
    // An invalid line adds no step.
    ensures unsaid { (error : FieldError) → result ≡ Err (Invalid error) → steps.new.items ≡ steps.old.items }
{
    if line.is_empty() {
        return Ok(());
    }
    match word_and_rest(line) {
        Some((word, rest)) => put_word(alloc, routes, number, word, rest, fields, steps),
        None => put_alone(routes.plant(), number, line, steps),
    }
}

/// Returns the steps of lines, each with its line's number; or the first invalid line.
fn steps_of_lines(
    alloc: Global,
    routes: &mut Routes,
    lines: &[&[u8]],
) -> Result<Vec<LineStep>, LineFault>
    ensures value { GivesSteps result (steps_after routes.old 1 [] (map (λ line. line.now) lines.now)) }
    ensures same { routes.new ≡ routes.old }
{
    let mut steps = Vec::new(alloc);
    let mut fields = Vec::new(alloc);
    let mut number = 1u64;
    for line in lines {
        match put_line(alloc, routes, number, line, &mut fields, &mut steps) {
            Ok(()) => {}
            Err(FieldFault::Invalid(_error)) => return Err(LineFault::Shape { number }),
            Err(FieldFault::NoMemory) => return Err(LineFault::NoMemory),
        }
        number += 1;
    }
    Ok(steps)
}

/// Returns the steps of a script, each with its line's number; or the first invalid line.
#[tactic(auto, unfolding(crate::specs::script::Script::steps_of))]
pub fn steps_of(
    alloc: Global,
    routes: &mut Routes,
    script: &[u8],
) -> Result<Vec<LineStep>, LineFault>
    // The steps of all lines, each with its line's number, otherwise the number of the first invalid line.
    ensures value { GivesSteps result (steps_of routes.old script.now) }
    // What arrives is placed at the operator that lists its modem.
    ensures placed { IfOk result (λ steps. ArePlaced routes.old steps.items) }
    ensures same { routes.new ≡ routes.old }
{
    let lines = parts_of(alloc, b'\n', script)?;
    steps_of_lines(alloc, routes, lines.as_slice())
}
