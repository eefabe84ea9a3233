//! Keys of the table `plant` with which a channel cannot work.

use crate::file::File;
use crate::key_messages::KeyMessages;
use crate::reason::{GapText, Reason};
use crate::tree::table_at;
use param_sets::Scheduling;
use plant::{Consts, OperatorRow, Plant, Provision};
use slice_table::{Field, Place};

/// The bytes of a request frame, which is the header of a MAC frame alone (CM-SP-MULPIv3.1, 6.2.1).
const REQUEST_BYTES: u32 = 6;

/// A key that counts ticks, and the timer of the standard for which it is there.
#[derive(Clone, Copy)]
struct TimerKey {
    field: Field,
    ticks: u16,
    /// The name of the timer (CM-SP-MULPIv3.1, Annex B).
    timer: &'static str,
    /// The most microseconds of the timer.
    most: u64,
}

/// Returns whether a provisioned flow is served from the first frame on without a request in the head of a frame.
fn is_served_unasked(consts: &Consts, provision: &Provision) -> bool {
    match provision.sets(consts) {
        Some(sets) => match sets.get_active() {
            Some(set) => set.get_scheduling() != Scheduling::BestEffort,
            None => false,
        },
        None => false,
    }
}

/// Returns whether an operator has a provisioned flow that is served without a request in the head.
fn has_unasked_flow(consts: &Consts, row: &OperatorRow) -> bool {
    for provision in row.get_fields().provisions.as_slice() {
        if is_served_unasked(consts, provision) {
            return true;
        }
    }
    false
}

/// Returns whether a modem can send something although no frame has a head.
fn can_send_without_head(plant: &Plant) -> bool {
    for row in plant.rows() {
        if has_unasked_flow(plant.consts(), row) {
            return true;
        }
    }
    false
}

/// Adds that no modem can request minislots.
fn add_head(found: &mut KeyMessages, file: &File<'_>, plant: &Plant) {
    let channel = &plant.consts().get_fields().channel;
    if channel.head == 0 && !can_send_without_head(plant) {
        found.add_key(
            file,
            Place::Plant,
            Field::Head,
            "head 0 leaves no minislot for bandwidth requests, and no active provisioned flow is polled or has unsolicited grants: write at least 1, and begin the slices after the head",
            &[],
        );
    }
}

/// Returns how many modems a plant has.
fn modem_count(plant: &Plant) -> usize {
    let mut count = 0usize;
    for row in plant.rows() {
        count = count.saturating_add(row.get_fields().modems.as_slice().len());
    }
    count
}

/// Adds that modems whose requests collide do not back off, or that the window of their backoff begins greater than it may get.
fn add_backoffs(found: &mut KeyMessages, file: &File<'_>, plant: &Plant) {
    let channel = &plant.consts().get_fields().channel;
    let (start, end) = (channel.backoffs.data_start, channel.backoffs.data_end);
    if start > end {
        found.add_key(
            file,
            Place::Plant,
            Field::DataStart,
            "data_start {} is greater than data_end {}: the backoff window of requests must not begin greater than it ends: lower data_start, or raise data_end",
            &[
                GapText::Number(u64::from(start)),
                GapText::Number(u64::from(end)),
            ],
        );
    } else if end == 0 && channel.head > 0 && modem_count(plant) > 1 {
        found.add_key(
            file,
            Place::Plant,
            Field::DataEnd,
            "data_start and data_end are 0: modems whose requests collide repeat them at the same minislot, and collide again: write greater ones, as data_start = 2 and data_end = 8",
            &[],
        );
    }
}

/// Returns what is said after the value of a key of the table `plant` that the file leaves out.
fn default_note(file: &File<'_>, field: Field) -> &'static str {
    match table_at(file.document, Place::Plant) {
        Some(table) if table.get(field.text()).is_some() => "",
        _ => " (its default)",
    }
}

/// Says what to do where ticks take too long: so many are allowed at most.
fn say_allowed_ticks(reason: &mut Reason, field: Field, allowed: u64) {
    if allowed == 0 {
        reason.say("take shorter frames (frame_us)", &[]);
    } else {
        reason.say(
            "write {} = {} or less",
            &[GapText::Words(field.text()), GapText::Number(allowed)],
        );
    }
}

/// Adds that ticks take longer than the timer for which they are counted.
fn add_timer(found: &mut KeyMessages, file: &File<'_>, plant: &Plant, key: TimerKey) {
    let frame_us = u64::from(plant.consts().get_fields().units.get_frame_us());
    let taken = u64::from(key.ticks).saturating_mul(frame_us);
    if taken <= key.most {
        return;
    }
    let mut advice = Reason::new(found.alloc());
    say_allowed_ticks(&mut advice, key.field, key.most / frame_us);
    found.add_key(
        file,
        Place::Plant,
        key.field,
        "{} {}{} is {} microseconds, and {} is at most {} (CM-SP-MULPIv3.1, Annex B): {}",
        &[
            GapText::Words(key.field.text()),
            GapText::Number(u64::from(key.ticks)),
            GapText::Words(default_note(file, key.field)),
            GapText::Number(taken),
            GapText::Words(key.timer),
            GapText::Number(key.most),
            GapText::Told(&advice),
        ],
    );
}

/// Adds which keys that count ticks take longer than the standard allows.
fn add_timers(found: &mut KeyMessages, file: &File<'_>, plant: &Plant) {
    let timers = &plant.consts().get_fields().timers;
    for key in [
        TimerKey {
            field: Field::AckWait,
            ticks: timers.get_ack_wait(),
            timer: "T8",
            most: 300_000,
        },
        TimerKey {
            field: Field::Hold,
            ticks: timers.get_hold(),
            timer: "T10",
            most: 3_000_000,
        },
    ] {
        add_timer(found, file, plant, key);
    }
}

/// Adds that a frame has an odd number of minislots: then no number but its own gives a frame the same time in minislots.
fn add_frame(found: &mut KeyMessages, file: &File<'_>, plant: &Plant) {
    let minislots = plant.consts().get_fields().channel.frame_minislots;
    if minislots % 2 == 1 {
        found.add_key(
            file,
            Place::Plant,
            Field::FrameMinislots,
            "frame_minislots {} is odd: frame numbers cannot begin again, and end with 4294967295: write an even number",
            &[GapText::Number(u64::from(minislots))],
        );
    }
}

/// Adds that a minislot has no room for a request.
fn add_minislot(found: &mut KeyMessages, file: &File<'_>, plant: &Plant) {
    let bytes = plant.consts().get_fields().units.get_bytes_per_minislot();
    if bytes < REQUEST_BYTES {
        found.add_key(
            file,
            Place::Plant,
            Field::BytesPerMinislot,
            "bytes_per_minislot {} is less than a request frame, {} bytes (CM-SP-MULPIv3.1, 6.2.1), and a poll is one minislot: take longer minislots",
            &[
                GapText::Number(u64::from(bytes)),
                GapText::Number(u64::from(REQUEST_BYTES)),
            ],
        );
    }
}

/// Adds the keys of the table `plant` with which a channel cannot work, in their order.
pub(crate) fn add_channel(found: &mut KeyMessages, file: &File<'_>, plant: &Plant) {
    add_frame(found, file, plant);
    add_head(found, file, plant);
    add_minislot(found, file, plant);
    add_backoffs(found, file, plant);
    add_timers(found, file, plant);
}
