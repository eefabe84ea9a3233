//! TLVs, and their faults.

ghost use Rattle.std.specs.Prelude.{◌≡◌, ℕ, ◌≤◌, List, [], ◌∷◌, length, Option, Some, None, MatchOption, IfOk, IfErr};
ghost use Rattle.std.specs.Option.{option_map};
ghost use Rattle.tlv24.specs.Tlv.{tlv, first_tlv, Begins, NoTlvBegins, IsTlvList};
ghost use Rattle.tlv24.specs.Split.{IsSplitFault, TlvsAreRead};
ghost use Rattle.tlv24.specs.declared.tlv.TlvFault.TheVariants.{NoMemory};

use crate::bytes::Bytes;
use std::alloc::{AllocError, AllocFailed, Global};

/// One TLV: its type byte and its value. The length byte is the value's length.
#[derive(Debug, Drop)]
pub struct Tlv {
    pub kind: u8,
    pub value: Bytes,
}

/// What is wrong with a list of TLVs or with a flow encoding.
#[derive(Clone, Copy, Debug, PartialEq, Eq)]
pub enum TlvFault {
    /// A length byte or a value reaches past the end; `at` is where its TLV begins, counted from the start of the list.
    Cut { at: usize },
    /// A known subtype with another length than its own.
    WrongLength { subtype: u8 },
    /// A known subtype that was before.
    Twice { subtype: u8 },
    /// A known subtype with a value out of its range.
    Range { subtype: u8 },
    /// Memory ran out before any effect.
    NoMemory,
}

impl From<AllocError> for TlvFault {
    ghost from_gives = { λ _ fault. fault ≡ NoMemory };

    fn from(_error: AllocError) -> TlvFault {
        TlvFault::NoMemory
    }
}

impl<T: Drop> From<AllocFailed<T>> for TlvFault {
    ghost from_gives = { λ _ fault. fault ≡ NoMemory };

    fn from(_error: AllocFailed<T>) -> TlvFault {
        TlvFault::NoMemory
    }
}

/// The TLV that some bytes begin with, in place, and the bytes after it.
#[derive(Clone, Copy, Debug)]
pub struct FirstTlv<'a> {
    pub kind: u8,
    pub value: &'a [u8],
    pub rest: &'a [u8],
}

/// Returns the TLV that the bytes begin with; none where the bytes end before it does.
pub fn first_tlv(bytes: &[u8]) -> Option<FirstTlv<'_>>
    ensures exact { option_map (λ first.
        record { tlv = tlv first.kind first.value.now; rest = first.rest.now }) result ≡ first_tlv bytes.now }
    ensures begins { MatchOption result (NoTlvBegins bytes.now)
        (λ first. Begins bytes.now (tlv first.kind first.value.now) first.rest.now) }
{
    let [kind, count, more @ ..] = bytes else {
        return None;
    };
    let count = *count as usize;
    if count > more.len() {
        return None;
    }
    let (value, rest) = more.split_at(count);
    Some(FirstTlv {
        kind: *kind,
        value,
        rest,
    })
}

/// The reading of lists of TLVs.
pub struct Tlvs;

impl Tlvs {
    /// Returns the TLVs that the bytes are, in order, or `Cut` if they are not a list of TLVs.
    pub fn split(alloc: Global, bytes: &[u8]) -> Result<Vec<Tlv>, TlvFault>
        ensures found { IfOk result (λ tlvs. IsTlvList bytes.now tlvs.items) }
        // A list of TLVs is returned, unless memory runs out.
        ensures only { (tlvs : List Tlv) → IsTlvList bytes.now tlvs → TlvsAreRead result tlvs }
        // Otherwise the place where the list is cut.
        ensures fault { IfErr result (IsSplitFault bytes.now) }
    {
        let mut tlvs = Vec::new(alloc);
        let mut rest = bytes;
        while !rest.is_empty() {
            let Some(first) = first_tlv(rest) else {
                let at = bytes.len() - rest.len();
                return Err(TlvFault::Cut { at });
            };
            let value = Bytes::from_slice(alloc, first.value)?;
            tlvs.push(Tlv {
                kind: first.kind,
                value,
            })?;
            rest = first.rest;
        }
        Ok(tlvs)
    }
}
