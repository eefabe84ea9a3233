//! Reading replies.

ghost use Rattle.std.specs.Prelude.{◌≡◌, ◌<◌, [], ◌∷◌, Option, Some, None, IfSome, IfOk};
ghost use Rattle.dsx_messages.specs.Spelling.{response_type, spell_reply};
ghost use Rattle.dsx_messages.specs.WellFormed.{IsWellFormed};
ghost use Rattle.dsx_messages.specs.Told.{IsDetailSpelling};
ghost use Rattle.dsx_messages.specs.Widths.{FitsDetail, FitsReply};
ghost use Rattle.dsx_messages.specs.declared.kind.Kind.{Kind};
ghost use Rattle.dsx_messages.specs.declared.kind.Kind.TheVariants.{Dsa, Dsc, Dsd};
ghost use Rattle.dsx_messages.specs.declared.code.Code.{Code};
ghost use Rattle.dsx_messages.specs.declared.code.Code.TheVariants.{Okay};
ghost use Rattle.dsx_messages.specs.declared.reply.Detail.{Detail};
ghost use Rattle.dsx_messages.specs.declared.reply.Detail.TheVariants.{Nothing};
ghost use Rattle.dsx_messages.specs.declared.reply.ReplyFields.{ReplyFields};

use crate::code::Code;
use crate::kind::Kind;
use crate::message_type;
use crate::reply::{Detail, Reply, ReplyFields};
use crate::reply_details::{accepted_addition, accepted_change, refused_addition, refused_change};
use crate::spell::write_reply;
use std::alloc::{AllocError, Global};

/// Returns what a response answers to, by its message type.
fn kind_of(mtype: u8) -> Option<Kind>
    ensures found { IfSome result (λ kind. response_type kind ≡ mtype) }
    ensures every { (kind : Kind) → response_type kind ≡ mtype → result ≡ Some kind }
{
    match mtype {
        message_type::DSA_RSP => Some(Kind::Dsa),
        message_type::DSC_RSP => Some(Kind::Dsc),
        message_type::DSD_RSP => Some(Kind::Dsd),
        _ => None,
    }
}

/// Returns what a deletion says: nothing, in a reserved byte, which is 0.
fn parse_deletion(tail: &[u8]) -> Option<Detail>
    ensures spelled { (code : Code) → IfSome result (IsDetailSpelling Dsd code tail.now) }
    ensures every { tail.now ≡ 0 ∷ [] → result ≡ Some Nothing }
{
    match tail {
        [0] => Some(Detail::Nothing),
        _ => None,
    }
}

/// Returns what follows the confirmation code.
fn detail_of(kind: Kind, code: Code, tail: &[u8]) -> Option<Detail>
    ensures spelled { IfSome result (IsDetailSpelling kind code tail.now) }
    ensures every { (detail : Detail) → IsDetailSpelling kind code tail.now detail → FitsDetail detail → result ≡ Some detail }
{
    match kind {
        Kind::Dsa => match code {
            Code::Okay => accepted_addition(tail),
            _ => refused_addition(code, tail),
        },
        Kind::Dsc => match code {
            Code::Okay => accepted_change(tail),
            _ => refused_change(code, tail),
        },
        Kind::Dsd => parse_deletion(tail),
    }
}

/// Reads a reply: some exactly for the bytes that `write_reply` gives for it. Takes no memory.
pub fn read_reply(bytes: &[u8]) -> Option<Reply>
    // A reply is returned only for its one spelling.
    ensures spelled { IfSome result (λ reply. bytes.now ≡ spell_reply reply) }
    // Each spelling of a reply is read.
    ensures every { (reply : ReplyFields) → IsWellFormed reply → FitsReply reply → bytes.now ≡ spell_reply reply
        → result ≡ Some reply }
{
    let [mtype, high, low, number, tail @ ..] = bytes else {
        return None;
    };
    let kind = kind_of(*mtype)?;
    let code = Code::from_number(*number)?;
    let detail = detail_of(kind, code, tail)?;
    Some(Reply::new(ReplyFields {
        kind,
        tid: u16::from_be_bytes([*high, *low]),
        code,
        detail,
    }))
}

/// States that what is written of a reply is read as that reply.
pub fn read_back(alloc: Global, reply: &Reply) -> Result<Reply, AllocError>
    ensures { IfOk result (λ again. again ≡ reply.now) }
{
    let bytes = write_reply(alloc, reply)?;
    // For the proof: the detail goes with the kind and the code, and each number has the width of
    // its field.
    reply.fits();
    match read_reply(&bytes) {
        Some(again) => Ok(again),
        None => unreachable!(),
    }
}
