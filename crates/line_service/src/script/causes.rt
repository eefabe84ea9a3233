//! The names of causes for which nothing is answered.

ghost use Rattle.std.specs.Prelude.{◌≡◌};
ghost use Rattle.line_service.specs.script.Causes.{cause_name};

use operator_model::Cause;

/// Returns the name of a cause, as it is written.
pub fn cause_name(cause: Cause) -> &'static str
    ensures { result.now ≡ cause_name cause }
{
    match cause {
        Cause::InboxFull => "InboxFull",
        Cause::Idle => "Idle",
        Cause::Empty => "Empty",
        Cause::NotOurs => "NotOurs",
        Cause::Short => "Short",
        Cause::TidInUse => "TidInUse",
        Cause::UnknownAck => "UnknownAck",
        Cause::NoSuchSid => "NoSuchSid",
        Cause::NotRequesting => "NotRequesting",
    }
}
