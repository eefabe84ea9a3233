//! What due flows are granted, whatever they ask.

ghost use Rattle.std.specs.Prelude.{◌≡◌, ◌++◌, All, IfOk, OnOk, min, replicate};
ghost use Rattle.slice_scheduler.specs.Due.{interval_of, ends_after, is_due, due_minislots, due_pieces, iuc_of};
ghost use Rattle.slice_scheduler.specs.Servable.{IsPast};
ghost use Rattle.slice_scheduler.specs.Wanted.{HasMinislots};

use crate::flowing::{At, Flowing};
use crate::piece::Piece;
use crate::span::Iuc;
use param_sets::{ParamFields, Scheduling, Units};
use std::alloc::AllocError;

/// Returns the frames from one due frame of a flow to the next: None at best effort.
fn interval(fields: &ParamFields, units: &Units) -> Option<u32>
    ensures { result ≡ interval_of fields.now.scheduling fields.now units.now }
{
    match fields.scheduling {
        Scheduling::BestEffort => None,
        Scheduling::NonRealTimePolling | Scheduling::RealTimePolling => {
            Some(units.frames(fields.polling_interval))
        }
        Scheduling::UnsolicitedGrant => Some(units.frames(fields.grant_interval)),
    }
}

/// Returns whether an interval ends after so many frames.
fn ends_at(frames: u32, interval: Option<u32>) -> bool
    ensures { result ≡ ends_after frames interval }
{
    match interval {
        None | Some(0) => false,
        Some(interval) => frames % interval == 0,
    }
}

/// Returns whether a flow is due.
fn due_now(at: &At, flow: &Flowing) -> bool
    requires { IsPast at.now.frame flow.now }
    ensures { result ≡ is_due at.now flow.now }
{
    let fields = flow.set.get_fields();
    ends_at(
        at.get_frame() - flow.start,
        interval(&fields, &at.get_units()),
    )
}

/// Returns the code of a grant of so many minislots.
pub(crate) fn iuc_for(at: &At, minislots: u16) -> Iuc
    ensures { result ≡ iuc_of at.now minislots }
{
    if minislots <= at.get_short_max() {
        Iuc::Short
    } else {
        Iuc::Long
    }
}

/// Adds the same grant so many times.
fn push_many(pieces: &mut Vec<Piece>, piece: Piece, times: u8) -> Result<(), AllocError>
    ensures { OnOk result (pieces.new.items ≡ pieces.old.items ++ replicate times piece) }
{
    for _time in 0..times {
        pieces.push(piece)?;
    }
    Ok(())
}

/// Adds the grants that a flow has whatever it asks. Returns their minislots, at most 65,535.
pub(crate) fn push_due(pieces: &mut Vec<Piece>, flow: &Flowing, at: &At) -> Result<u16, AllocError>
    requires { IsPast at.now.frame flow.now }
    ensures items { OnOk result (pieces.new.items ≡ pieces.old.items ++ due_pieces at.now flow.now) }
    ensures some { OnOk result (All HasMinislots (due_pieces at.now flow.now)) }
    ensures minislots { IfOk result (λ minislots. minislots ≡ min 65535 (due_minislots at.now flow.now)) }
{
    if !due_now(at, flow) {
        return Ok(0);
    }
    let fields = flow.set.get_fields();
    match fields.scheduling {
        Scheduling::BestEffort => Ok(0),
        Scheduling::NonRealTimePolling | Scheduling::RealTimePolling => {
            pieces.push(Piece {
                sid: flow.sid,
                iuc: Iuc::Request,
                len: 1,
            })?;
            Ok(1)
        }
        Scheduling::UnsolicitedGrant => {
            let len = at.get_units().minislots(u32::from(fields.grant_size)) as u16;
            let piece = Piece {
                sid: flow.sid,
                iuc: iuc_for(at, len),
                len,
            };
            push_many(pieces, piece, fields.grants_per_interval)?;
            Ok(u16::from(fields.grants_per_interval).saturating_mul(len))
        }
    }
}
