//! Names of operators.

ghost use Rattle.std.specs.Prelude.{◌≡◌, ◌↔◌, Some, IsSome, IfSome};
ghost use Rattle.std.specs.Char.{is_ascii_alphanumeric};
ghost use Rattle.std.specs.List.{list_all};
ghost use Rattle.plant.specs.Name.{IsOperatorName};

use std::fmt::{self, Display};
use std::marker::Model;

/// The most characters that an operator's name has.
const LONGEST: usize = 16;

/// An operator's name: 1 to 16 ASCII letters or digits. Contracts see its bytes.
#[derive(Clone, Copy, Debug, PartialEq, Eq)]
pub struct OperatorName {
    bytes: [u8; LONGEST],
    len: usize,
}

impl Model for OperatorName {
    ghost use Rattle.std.specs.Prelude.{ℕ, List, ◌++◌, ◌-◌, length, take, replicate};
    ghost use Rattle.plant.specs.Name.{IsOperatorName};
    ghost use Rattle.lists.specs.Padding.{IsPaddedName, padded_name_splits};

    ghost Value = { List ℕ };

    ghost view = { λ n. take n.len n.bytes };

    ghost invariant = { λ n. IsPaddedName IsOperatorName 16 n.bytes n.len };

    ghost inverse = { λ name. record { bytes = name ++ replicate (16 - length name) 0; len = length name } };

    ghost inverse_ok = { λ n h. λ i. record { bytes = (padded_name_splits n.bytes n.len h).0 i; len = (padded_name_splits n.bytes n.len h).1 i } };
}

impl OperatorName {
    /// Returns the name of these bytes; none where they are not a name.
    pub fn new(name: &[u8]) -> Option<OperatorName>
        ensures value { IfSome result (λ made. made ≡ name.now) }
        ensures valid { IsSome result ↔ IsOperatorName name.now }
    {
        if name.is_empty() || name.len() > LONGEST || !is_alphanumeric(name) {
            return None;
        }
        let mut bytes = [0; LONGEST];
        bytes[..name.len()].copy_from_slice(name);
        Some(OperatorName {
            bytes,
            len: name.len(),
        })
    }

    /// Returns the name's characters in place.
    pub fn as_slice(&self) -> &[u8]
        ensures value { result.now ≡ self.now }
        ensures valid { IsOperatorName result.now }
    {
        &self.bytes[..self.len]
    }
}

impl Display for OperatorName {
    ghost output = { λ name. Some name };

    fn fmt<W: fmt::Write>(&self, f: &mut fmt::Formatter<W>) -> fmt::Result {
        match str::from_utf8(self.as_slice()) {
            Ok(text) => write!(f, "{text}"),
            Err(_) => Err(fmt::Error),
        }
    }
}

/// Returns whether each byte is an ASCII letter or digit.
pub fn is_alphanumeric(bytes: &[u8]) -> bool
    ensures { result ≡ list_all is_ascii_alphanumeric bytes.now }
{
    bytes.iter().all(|b| b.is_ascii_alphanumeric())
}
