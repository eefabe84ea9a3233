//! Names of service classes.

ghost use Rattle.std.specs.Prelude.{◌≡◌, ◌==◌, ◌↔◌, not, IsSome, IfSome};
ghost use Rattle.std.specs.List.{list_all};
ghost use Rattle.tlv24.specs.Name.{IsClassName};

use std::marker::Model;

/// The most bytes that a class name has.
const LONGEST: usize = 15;

/// A service class name (CM-SP-MULPIv3.1, Annex C, subtype 4), without the 0 that ends it on the wire:
/// 1 to 15 bytes, none of them 0. Contracts see its bytes.
#[derive(Clone, Copy, Debug, PartialEq, Eq)]
pub struct ClassName {
    bytes: [u8; LONGEST],
    len: usize,
}

impl Model for ClassName {
    ghost use Rattle.std.specs.Prelude.{ℕ, List, ◌++◌, ◌-◌, length, take, replicate};
    ghost use Rattle.tlv24.specs.Name.{IsClassName};
    ghost use Rattle.lists.specs.Padding.{IsPaddedName, padded_name_splits};

    ghost Value = { List ℕ };

    ghost view = { λ n. take n.len n.bytes };

    ghost invariant = { λ n. IsPaddedName IsClassName 15 n.bytes n.len };

    ghost inverse = { λ name. record { bytes = name ++ replicate (15 - length name) 0; len = length name } };

    ghost inverse_ok = { λ n h. λ i. record { bytes = (padded_name_splits n.bytes n.len h).0 i; len = (padded_name_splits n.bytes n.len h).1 i } };
}

impl ClassName {
    /// Returns the class name of these bytes; none where they are not a name.
    pub fn new(name: &[u8]) -> Option<ClassName>
        ensures value { IfSome result (λ made. made ≡ name.now) }
        ensures valid { IsSome result ↔ IsClassName name.now }
    {
        if name.is_empty() || name.len() > LONGEST || !has_no_zero(name) {
            return None;
        }
        let mut bytes = [0; LONGEST];
        bytes[..name.len()].copy_from_slice(name);
        Some(ClassName {
            bytes,
            len: name.len(),
        })
    }

    /// Returns the name's bytes in place.
    pub fn as_slice(&self) -> &[u8]
        ensures value { result.now ≡ self.now }
        ensures valid { IsClassName result.now }
    {
        &self.bytes[..self.len]
    }
}

/// Returns whether no byte is 0.
pub(crate) fn has_no_zero(bytes: &[u8]) -> bool
    ensures { result ≡ list_all (λ b. not (b == 0)) bytes.now }
{
    bytes.iter().all(|b| *b != 0)
}
