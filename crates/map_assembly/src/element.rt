//! Information elements of a MAP.

ghost use Rattle.std.specs.Prelude.{◌≡◌, ◌+◌, [], ◌∷◌, ◌<◌, length, MatchOption, IfSome};
ghost use Rattle.std.specs.Int.{w32, to_be_bytes};
ghost use Rattle.map_assembly.specs.Wire.{element_bytes};
ghost use Rattle.map_assembly.specs.Element.{word_of, element_of, is_null, FitsElement, elements_in};

use crate::wire::{IUCS, NOBODYS_SID, NULL_IUC, OFFSETS};

/// An information element of a MAP (CM-SP-MULPIv3.1, 6.4.4.2): 32 bits.
#[derive(Clone, Copy, Debug, PartialEq, Eq)]
pub struct MapElement {
    /// To whom: 14 bits.
    pub sid: u16,
    /// For what use: 4 bits.
    pub iuc: u8,
    /// The minislot at which it begins: 14 bits.
    pub offset: u16,
}

impl MapElement {
    /// Returns the element of these 32 bits.
    fn from_word(word: u32) -> MapElement
        ensures value { result ≡ element_of word }
        ensures fits { FitsElement result }
    {
        MapElement {
            sid: (word / (IUCS * OFFSETS)) as u16,
            iuc: (word / OFFSETS % IUCS) as u8,
            offset: (word % OFFSETS) as u16,
        }
    }

    /// Returns the 32 bits of the element.
    pub(crate) fn word(self) -> u32
        requires { FitsElement self }
        ensures { result ≡ word_of self }
    {
        self.sid as u32 * (IUCS * OFFSETS) + self.iuc as u32 * OFFSETS + self.offset as u32
    }

    /// Returns whether it is a Null element: the SID of nobody, and the Null's IUC.
    pub(crate) fn is_null(self) -> bool
        ensures { result ≡ is_null self }
    {
        self.sid == NOBODYS_SID && self.iuc == NULL_IUC
    }
}

/// The element that some bytes begin with, and the bytes after it.
#[derive(Clone, Copy, Debug)]
pub(crate) struct FirstElement<'a> {
    pub element: MapElement,
    pub rest: &'a [u8],
}

/// Returns the element that the bytes begin with; none where there are fewer than four.
pub(crate) fn first_element(bytes: &[u8]) -> Option<FirstElement<'_>>
    ensures elements { MatchOption result (elements_in bytes.now ≡ []) (λ first. elements_in bytes.now
        ≡ first.element ∷ elements_in first.rest.now) }
    ensures fits { IfSome result (λ first. FitsElement first.element) }
    ensures rest { MatchOption result (length bytes.now < element_bytes) (λ first. length bytes.now
        ≡ length first.rest.now + element_bytes) }
{
    let [a, b, c, d, rest @ ..] = bytes else {
        return None;
    };
    Some(FirstElement {
        element: MapElement::from_word(u32::from_be_bytes([*a, *b, *c, *d])),
        rest,
    })
}
