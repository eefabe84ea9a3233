//! Replies to modems.

ghost use Rattle.std.specs.Prelude.{◌≡◌};
ghost use Rattle.dsx_messages.specs.WellFormed.{IsWellFormed};
ghost use Rattle.dsx_messages.specs.Widths.{FitsId, FitsDetail, FitsReply};
ghost use Rattle.dsx_messages.specs.declared.reply.ReplyFields.{ReplyFields};

use crate::code::Code;
use crate::kind::Kind;
use std::marker::Model;

/// The identifier of an invalid flow encoding: its Service Flow Reference in a DSA, its SFID in a
/// DSC.
#[derive(Clone, Copy, Debug, PartialEq, Eq)]
pub enum FlowId {
    Reference(u16),
    Sfid(u32),
}

/// What a reply says besides its code.
#[derive(Clone, Copy, Debug, PartialEq, Eq)]
pub enum Detail {
    Nothing,
    /// The flow that was added (its reference, SFID and SID) or changed (its SFID, and its SID where it has one).
    Given {
        reference: Option<u16>,
        sfid: u32,
        sid: Option<u16>,
    },
    /// The invalid encoding, where it is known, and the subtype that is wrong or missing.
    Errored {
        id: Option<FlowId>,
        subtype: u8,
    },
}

/// The parts of a reply: DSA-RSP (type 16), DSC-RSP (19) or DSD-RSP (22).
#[derive(Clone, Copy, Debug, PartialEq, Eq)]
pub struct ReplyFields {
    pub kind: Kind,
    pub tid: u16,
    pub code: Code,
    pub detail: Detail,
}

/// A reply whose detail goes with its kind and its code. Contracts see its parts.
#[derive(Clone, Copy, Debug, PartialEq, Eq)]
pub struct Reply {
    fields: ReplyFields,
}

impl Model for Reply {
    ghost Value = { ReplyFields };

    ghost view = { λ r. r.fields };

    ghost invariant = { λ r. IsWellFormed r.fields };

    ghost inverse = { λ f. record { fields = f } };
}

impl Reply {
    /// Returns the reply of these parts. The caller knows that its detail goes with its kind and
    /// its code.
    pub fn new(fields: ReplyFields) -> Reply
        requires { IsWellFormed fields }
        ensures { result ≡ fields }
    {
        Reply { fields }
    }

    /// Returns the kind of transaction that the reply belongs to.
    pub fn get_kind(&self) -> Kind
        ensures { result ≡ self.now.kind }
    {
        self.fields.kind
    }

    /// Returns the transaction ID of the reply.
    pub fn get_tid(&self) -> u16
        ensures { result ≡ self.now.tid }
    {
        self.fields.tid
    }

    /// Returns the confirmation code of the reply.
    pub fn get_code(&self) -> Code
        ensures { result ≡ self.now.code }
    {
        self.fields.code
    }

    /// Returns what the reply says besides its code.
    pub fn get_detail(&self) -> Detail
        ensures value { result ≡ self.now.detail }
        ensures fits { IsWellFormed self.now }
    {
        self.fields.detail
    }

    /// States that the detail of a reply goes with its kind and its code, and its numbers have the
    /// widths of their fields.
    pub fn fits(&self)
        ensures well_formed { IsWellFormed self.now }
        ensures widths { FitsReply self.now }
    {
        // For the proof: what the type of `self.fields.tid` keeps.
        let _tid = self.fields.tid;
        detail_fits(self.fields.detail);
    }
}

fn id_fits(id: FlowId)
    ensures { FitsId id }
{
    match id {
        FlowId::Reference(_reference) => {}
        FlowId::Sfid(_sfid) => {}
    }
}

fn detail_fits(detail: Detail)
    ensures { FitsDetail detail }
{
    match detail {
        Detail::Nothing => {}
        Detail::Given {
            reference: _,
            sfid: _,
            sid: _,
        } => {}
        Detail::Errored { id, subtype: _ } => {
            if let Some(id) = id {
                id_fits(id);
            }
        }
    }
}
