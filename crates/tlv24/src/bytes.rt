//! Bytes that a value owns.

ghost use Rattle.std.specs.Prelude.{◌≡◌, ◌==◌, ◌+◌, ◌≤◌, ◌++◌, [], length, IfOk, IfSome, IsOk, IsSome, ◌↔◌};

use std::alloc::{AllocError, Global};
use std::marker::Model;

/// The most bytes that are kept in the value itself.
const FEW: usize = 30;

/// At most 30 bytes, which are kept in the value itself and take no other memory. Contracts see
/// their list.
#[derive(Debug, Drop)]
pub struct ShortBytes {
    bytes: [u8; FEW],
    len: u8,
}

impl Model for ShortBytes {
    ghost use Rattle.std.specs.Prelude.{ℕ, List, ◌≤◌, take};

    ghost Value = { List ℕ };

    ghost view = { λ b. take b.len b.bytes };

    ghost invariant = { λ b. b.len ≤ 30 };
}

impl ShortBytes {
    /// Creates an empty list of bytes.
    pub fn new() -> ShortBytes
        ensures { result ≡ [] }
    {
        ShortBytes {
            bytes: [0; FEW],
            len: 0,
        }
    }

    /// Returns these bytes; none where they are more than 30.
    #[inline(always)]
    pub fn from_slice(slice: &[u8]) -> Option<ShortBytes>
        ensures value { IfSome result (λ bytes. bytes ≡ slice.now) }
        // None comes exactly for more than 30 bytes.
        ensures few { IsSome result ↔ (length slice.now ≤ 30) }
    {
        if slice.len() > FEW {
            return None;
        }
        let mut bytes = [0; FEW];
        bytes[..slice.len()].copy_from_slice(slice);
        Some(ShortBytes {
            bytes,
            len: slice.len() as u8,
        })
    }

    /// Returns an equal list of bytes.
    #[inline(always)]
    pub fn copy(&self) -> ShortBytes
        ensures { result ≡ self.now }
    {
        ShortBytes {
            bytes: self.bytes,
            len: self.len,
        }
    }

    /// Adds bytes after the others. The caller knows that there is room for them.
    #[inline(always)]
    pub fn put(&mut self, more: &[u8])
        requires { length self.old + length more.now ≤ 30 }
        ensures { self.new ≡ self.old ++ more.now }
    {
        let begin = usize::from(self.len);
        let end = begin + more.len();
        self.bytes[begin..end].copy_from_slice(more);
        self.len = end as u8;
    }

    /// Lends the bytes in place.
    #[inline(always)]
    pub fn as_slice(&self) -> &[u8]
        ensures value { result.now ≡ self.now }
        ensures few { length result.now ≤ 30 }
    {
        &self.bytes[..usize::from(self.len)]
    }
}

/// Where the bytes of a value are kept.
#[derive(Debug, Drop)]
enum Place {
    /// In the value itself.
    Short(ShortBytes),
    /// In memory of their own.
    Long(Vec<u8>),
}

/// Bytes that a value owns. Contracts see their list, so two are equal where their bytes are,
/// wherever those are in memory. A copy of at most 30 bytes takes no memory outside the value.
#[derive(Debug, Drop)]
pub struct Bytes {
    place: Place,
}

impl Model for Bytes {
    ghost use Rattle.std.specs.Prelude.{ℕ, List};
    ghost use Rattle.tlv24.specs.Bytes.{bytes_in};

    ghost Value = { List ℕ };

    ghost view = { λ b. bytes_in b.place };
}

impl Bytes {
    /// Creates an empty list of bytes.
    pub fn new() -> Bytes
        ensures { result ≡ [] }
    {
        Bytes::from_short(ShortBytes::new())
    }

    /// Makes bytes of at most 30, without memory.
    #[inline(always)]
    pub fn from_short(bytes: ShortBytes) -> Bytes
        ensures { result ≡ bytes }
    {
        Bytes {
            place: Place::Short(bytes),
        }
    }

    /// Makes bytes of these, without a copy.
    pub fn from_vec(bytes: Vec<u8>) -> Bytes
        ensures { result ≡ bytes.items }
    {
        Bytes {
            place: Place::Long(bytes),
        }
    }

    /// Gives the list back of which these bytes were made, without a copy. Returns `None` where the
    /// bytes are kept in the value itself.
    pub fn into_vec(self) -> Option<Vec<u8>>
        ensures { IfSome result (λ bytes. bytes.items ≡ self) }
    {
        let Bytes { place } = self;
        match place {
            Place::Short(_bytes) => None,
            Place::Long(bytes) => Some(bytes),
        }
    }

    /// Makes bytes of a copy of a slice. Takes memory for more than 30 bytes.
    #[inline(always)]
    pub fn from_slice(alloc: Global, slice: &[u8]) -> Result<Bytes, AllocError>
        ensures value { IfOk result (λ bytes. bytes ≡ slice.now) }
        // At most 30 bytes cannot fail.
        ensures few { length slice.now ≤ 30 → IsOk result }
    {
        match ShortBytes::from_slice(slice) {
            Some(bytes) => Ok(Bytes::from_short(bytes)),
            None => Ok(Bytes::from_vec(Vec::from_slice(alloc, slice)?)),
        }
    }

    /// Makes equal bytes that are kept apart from these.
    #[inline(always)]
    pub fn copy(&self, alloc: Global) -> Result<Bytes, AllocError>
        ensures value { IfOk result (λ copy. copy ≡ self.now) }
        // At most 30 bytes cannot fail.
        ensures few { length self.now ≤ 30 → IsOk result }
    {
        match &self.place {
            Place::Short(bytes) => Ok(Bytes::from_short(bytes.copy())),
            Place::Long(bytes) => Bytes::from_slice(alloc, bytes.as_slice()),
        }
    }

    /// Lends the bytes in place.
    #[inline(always)]
    pub fn as_slice(&self) -> &[u8]
        ensures { result.now ≡ self.now }
    {
        match &self.place {
            Place::Short(bytes) => bytes.as_slice(),
            Place::Long(bytes) => bytes.as_slice(),
        }
    }

    /// Returns how many bytes there are.
    pub fn len(&self) -> usize
        ensures { result ≡ length self.now }
    {
        self.as_slice().len()
    }

    /// Returns whether there are none.
    pub fn is_empty(&self) -> bool
        ensures { result ≡ (length self.now == 0) }
    {
        self.as_slice().is_empty()
    }
}
