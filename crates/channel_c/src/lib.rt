//! The library for C: a handle owns a channel, each step is a call, and outputs are fetched into the caller's buffers.
#![tactic(auto)]

ghost use Rattle.std.specs.Prelude.{◌≡◌, ◌≢◌, ◌↔◌, None, Some, map};
ghost use Rattle.operator_model.specs.declared.heard.Heard.TheVariants as heards;
ghost use Rattle.run_model.specs.declared.step.Step.TheVariants as steps;
ghost use Rattle.channel_c.specs.declared.channel.OpenChannel.{OpenChannel};
ghost use Rattle.channel_c.specs.Answers.{InHandle, StepEnds, ArrivalEnds, OrNoMemory, row_as};
ghost use Rattle.channel_c.specs.Codes.{IsOpenCode};
ghost use Rattle.channel_c.specs.Fetched.{FetchEnds};
ghost use Rattle.channel_c.specs.PlantText.{plant_said};
ghost use Rattle.channel_c.specs.Saved.{ChangeEnds, IsReopenCode, IsReopenedFrom, SaveEnds};
ghost use Rattle.channel_c.specs.Waiting.{IsOpenedFrom, IsSame};

mod channel;
mod codes;
mod fetching;
mod grants;
mod handle;
mod head;
mod parts;
mod performing;
mod putting;
mod reopening;
mod saving;
mod slices;

use channel::OpenChannel;
use codes::{CLOSED, DONE, NO_MEMORY, plant_code};
use dsx_messages::Modem;
use grants::Grant;
use handle::Handle;
use head::OutputHead;
use operator_model::Heard;
use run_model::Step;
use slices::SliceBudget;
use std::alloc::Global;

/// The hardware address of a cable modem.
#[repr(C)]
#[derive(Clone, Copy)]
pub struct Address {
    pub bytes: [u8; 6],
}

/// Puts a channel into a handle, in place of what it held. Returns 0, or 1 if memory runs out; then
/// the handle is as it was.
fn install(alloc: Global, handle: &mut Handle, channel: OpenChannel) -> u32
    ensures done { result ≡ 0 → handle.new.home ≡ Some channel }
    ensures same { result ≢ 0 → handle.new.home ≡ handle.old.home }
    ensures codes { result ≢ 0 → result ≡ 1 }
{
    match Box::new(alloc, channel) {
        Ok(channel) => {
            drop(handle.take(alloc));
            handle.put(channel);
            DONE
        }
        Err(_) => NO_MEMORY,
    }
}

/// Opens the channel of a plant file. What the handle held before is freed. Returns 0, 1 if memory
/// runs out, or the number of the file's first fault, 10 to 19; then the handle is as it was.
#[tactic(auto, using(crate::proofs::CodeLemmas::plant_more, crate::proofs::CodeLemmas::open_without_memory, crate::proofs::CodeLemmas::open_done, crate::proofs::CodeLemmas::open_refused))]
#[unsafe(no_mangle)]
pub extern "C" fn melfjits_open(alloc: Global, handle: &mut Handle, text: &[u8]) -> u32
    // 0 only if the file says a plant.
    ensures opened { result ≡ 0 → (channel : OpenChannel) × (handle.new.home ≡ Some channel) × IsOpenedFrom text.now channel }
    ensures same { result ≢ 0 → handle.new.home ≡ handle.old.home }
    // 1 if memory ran out, or the number of the file's first fault.
    ensures fault { IsOpenCode result (plant_said text.now) }
{
    let channel = match OpenChannel::open(alloc, text) {
        Ok(channel) => channel,
        Err(fault) => return plant_code(fault),
    };
    install(alloc, handle, channel)
}

/// Opens a channel that was saved: it goes on before the frame of its snapshot, and no output
/// waits. What the handle held before is freed. Returns 0, 1 if memory runs out, or the number of
/// what is wrong: with the plant file in the snapshot 10 to 19, with the states 43 to 46. Then the
/// handle is as it was.
#[tactic(auto, using(crate::proofs::SavedLemmas::reopen_memory, crate::proofs::SavedLemmas::reopen_done))]
#[unsafe(no_mangle)]
pub extern "C" fn melfjits_open_saved(alloc: Global, handle: &mut Handle, text: &[u8]) -> u32
    // 0 only if the text is a snapshot, from which the channel goes on.
    ensures opened { result ≡ 0 → (channel : OpenChannel) × (handle.new.home ≡ Some channel) × IsReopenedFrom text.now channel }
    ensures same { result ≢ 0 → handle.new.home ≡ handle.old.home }
    ensures fault { IsReopenCode result text.now }
{
    match OpenChannel::reopen(alloc, text) {
        Ok(channel) => install(alloc, handle, channel),
        Err(code) => code,
    }
}

/// Frees what the handle holds, and closes it. Returns 0, or 2 if it was closed already.
#[unsafe(no_mangle)]
pub extern "C" fn melfjits_close(alloc: Global, handle: &mut Handle) -> u32
    ensures closed { handle.new.home ≡ None }
    ensures before { (result ≡ 2) ↔ (handle.old.home ≡ None) }
    ensures codes { result ≢ 2 → result ≡ 0 }
{
    match handle.take(alloc) {
        Some(channel) => {
            drop(channel);
            DONE
        }
        None => CLOSED,
    }
}

/// Performs a step in the channel of a handle.
#[tactic(auto, using(crate::proofs::EndLemmas::in_open, crate::proofs::EndLemmas::in_closed))]
fn perform(alloc: Global, handle: &mut Handle, step: Step) -> u32
    ensures { InHandle result (StepEnds result step) handle.old.home handle.new.home }
{
    match handle.take(alloc) {
        Some(channel) => {
            let mut channel = channel;
            let code = channel.perform(alloc, step);
            handle.put(channel);
            code
        }
        None => CLOSED,
    }
}

/// Puts what a modem sent into the channel of a handle.
#[tactic(auto, using(crate::proofs::EndLemmas::in_open, crate::proofs::EndLemmas::in_closed))]
fn receive(alloc: Global, handle: &mut Handle, modem: Modem, heard: Heard) -> u32
    ensures { InHandle result (ArrivalEnds result modem heard) handle.old.home handle.new.home }
{
    match handle.take(alloc) {
        Some(channel) => {
            let mut channel = channel;
            let code = channel.receive(alloc, modem, heard);
            handle.put(channel);
            code
        }
        None => CLOSED,
    }
}

/// Puts a request for minislots into the inbox of the modem's operator, which handles the first of
/// its inbox (CM-SP-MULPIv3.1, 7.2).
#[unsafe(no_mangle)]
pub extern "C" fn melfjits_request(
    alloc: Global,
    handle: &mut Handle,
    modem: &Address,
    sid: u16,
    minislots: u16,
) -> u32
    // Two steps, `Arrive` and the `Work` of the modem's operator. 5 says that the first alone is done.
    ensures { InHandle result (ArrivalEnds result (record { 0 = modem.now.bytes }) (heards.Request sid minislots))
        handle.old.home handle.new.home }
{
    let address = modem.bytes;
    let heard = Heard::Request { sid, minislots };
    receive(alloc, handle, Modem(address), heard)
}

/// Lets an operator handle the first of its inbox: after the number 5, what was received then.
#[unsafe(no_mangle)]
pub extern "C" fn melfjits_work(alloc: Global, handle: &mut Handle, operator: usize) -> u32
    // 0 only if the step is performed and its outputs wait. Otherwise nothing changed, and the number says why. A
    // closed handle stays closed, with 2.
    ensures { InHandle result (StepEnds result (steps.Work operator)) handle.old.home handle.new.home }
{
    perform(alloc, handle, Step::Work { op: operator })
}

/// Counts an operator's timers on by a tick, and schedules its next frame.
#[unsafe(no_mangle)]
pub extern "C" fn melfjits_tick(alloc: Global, handle: &mut Handle, operator: usize) -> u32
    // 0 only if the step is performed and its outputs wait. Otherwise nothing changed, and the number says why.
    ensures { InHandle result (StepEnds result (steps.Tick operator)) handle.old.home handle.new.home }
{
    perform(alloc, handle, Step::Tick { op: operator })
}

/// Puts an operator's oldest frame that was not collected into the assembly. The last part of a
/// frame completes its MAP, which waits then.
#[unsafe(no_mangle)]
pub extern "C" fn melfjits_collect(alloc: Global, handle: &mut Handle, operator: usize) -> u32
    // 0 only if the step is performed and its outputs wait. Otherwise nothing changed, and the number says why.
    ensures { InHandle result (StepEnds result (steps.Collect operator)) handle.old.home handle.new.home }
{
    perform(alloc, handle, Step::Collect { op: operator })
}

/// Puts a message of a modem into the inbox of its operator, which handles the first of its inbox
/// (CM-SP-MULPIv3.1, 6.4.12 to 6.4.19). The message is one byte of message type and the payload.
#[tactic(auto, using(crate::proofs::EndLemmas::in_open, crate::proofs::EndLemmas::in_closed))]
#[unsafe(no_mangle)]
pub extern "C" fn melfjits_arrive(
    alloc: Global,
    handle: &mut Handle,
    modem: &Address,
    message: &[u8],
) -> u32
    // Two steps, `Arrive` and the `Work` of the modem's operator. 5 says that the first alone is done. No clause says
    // that memory ran out for the second.
    ensures { InHandle result (OrNoMemory result (ArrivalEnds result (record { 0 = modem.now.bytes }) (heards.Message message.now)))
        handle.old.home handle.new.home }
{
    let address = modem.bytes;
    let modem = Modem(address);
    match handle.take(alloc) {
        Some(channel) => {
            let mut channel = channel;
            let code = channel.receive_message(alloc, modem, message);
            handle.put(channel);
            code
        }
        None => CLOSED,
    }
}

/// Gives each operator another slice and budget from a later frame on: a row for each operator, in
/// the order of the plant file.
#[tactic(auto, using(crate::proofs::EndLemmas::in_open, crate::proofs::EndLemmas::in_closed))]
#[unsafe(no_mangle)]
pub extern "C" fn melfjits_reslice(
    alloc: Global,
    handle: &mut Handle,
    from: u32,
    rows: &[SliceBudget],
) -> u32
    // 0 only if the step `Reslice` is performed.
    ensures { InHandle result (OrNoMemory result (StepEnds result (steps.Reslice from (map row_as rows.now))))
        handle.old.home handle.new.home }
{
    match handle.take(alloc) {
        Some(channel) => {
            let mut channel = channel;
            let code = channel.reslice(alloc, from, rows);
            handle.put(channel);
            code
        }
        None => CLOSED,
    }
}

/// Fetches the output that waits first. Returns 0, 3 if it does not fit into the buffers, 4 if none
/// waits, or 2 if the handle is closed. An output that does not fit goes on waiting, and the head
/// says how long it is.
#[tactic(auto, using(crate::proofs::EndLemmas::in_open, crate::proofs::EndLemmas::in_closed))]
#[unsafe(no_mangle)]
pub extern "C" fn melfjits_next_output(
    alloc: Global,
    handle: &mut Handle,
    head: &mut OutputHead,
    bytes: &mut [u8],
    grants: &mut [Grant],
) -> u32
    // The head, and the bytes and grants at the beginning of the buffers. If they do not fit nothing changes.
    ensures ends { InHandle result (FetchEnds result head.new bytes.old bytes.new grants.old grants.new)
        handle.old.home handle.new.home }
    // With a closed handle nothing is written.
    ensures closed { handle.old.home ≡ None → (head.new ≡ head.old) × (bytes.new ≡ bytes.old) × (grants.new ≡ grants.old) }
{
    match handle.take(alloc) {
        Some(channel) => {
            let mut channel = channel;
            let code = channel.fetch(head, bytes, grants);
            handle.put(channel);
            code
        }
        None => CLOSED,
    }
}

/// Saves the channel at rest before a frame: writes the text of a snapshot, with its plant file, at
/// the beginning of a buffer, and its length. Returns 0, 3 if it does not fit, when its length alone
/// is written, 40 or 41 if the channel does not rest before a frame, 1 if memory runs out, or 2 if
/// the handle is closed. Outputs that wait are not saved, and go on waiting.
#[tactic(auto, using(crate::proofs::EndLemmas::in_open, crate::proofs::EndLemmas::in_closed))]
#[unsafe(no_mangle)]
pub extern "C" fn melfjits_save(
    alloc: Global,
    handle: &mut Handle,
    bytes: &mut [u8],
    length: &mut usize,
) -> u32
    // A closed handle stays closed, with 2. The text of an open one is written, and nothing of the channel changes. 1, out
    // of memory, comes only where the channel rests.
    ensures ends { InHandle result (λ old new. SaveEnds result length.old length.new bytes.old bytes.new old × IsSame old new)
        handle.old.home handle.new.home }
    // With a closed handle nothing is written.
    ensures closed { handle.old.home ≡ None → (length.new ≡ length.old) × (bytes.new ≡ bytes.old) }
{
    match handle.take(alloc) {
        Some(channel) => {
            let code = channel.save(alloc, bytes, length);
            handle.put(channel);
            code
        }
        None => CLOSED,
    }
}

/// Puts another plant file in force between two frames: each operator goes on in its state, by its
/// name. Returns 0, 1 if memory runs out, 2 if the handle is closed, the number of the file's first
/// fault, 10 to 19, or why the plant is not changed, 40 to 44. Outputs that wait go on waiting.
#[tactic(auto, using(crate::proofs::EndLemmas::in_open, crate::proofs::EndLemmas::in_closed))]
#[unsafe(no_mangle)]
pub extern "C" fn melfjits_change(alloc: Global, handle: &mut Handle, text: &[u8]) -> u32
    ensures { InHandle result (ChangeEnds result text.now) handle.old.home handle.new.home }
{
    match handle.take(alloc) {
        Some(channel) => {
            let mut channel = channel;
            let code = channel.change(alloc, text);
            handle.put(channel);
            code
        }
        None => CLOSED,
    }
}
