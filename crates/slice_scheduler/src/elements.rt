//! The elements of an operator's part of a MAP.

ghost use Rattle.std.specs.Prelude.{◌≡◌, IfOk};
ghost use Rattle.slice_scheduler.specs.Tiles.{IsTiled};
ghost use Rattle.slice_scheduler.specs.declared.elements.ElementsFields.{ElementsFields};

use crate::emptying::copy_into;
use crate::slice::Slice;
use crate::span::{Span, Spans};
use lists::Listed;
use std::alloc::{AllocError, Global};
use std::marker::Model;

/// SIDs one after the other.
pub type Sids = Listed<u16>;

/// The elements of an operator's part of a MAP: who is granted which minislots of its slice, and who waits for more.
#[derive(Debug, Drop)]
pub struct ElementsFields {
    /// The minislots that are the operator's.
    pub slice: Slice,
    /// Who is granted which, in the order of the minislots.
    pub spans: Spans,
    /// The SIDs of grants pending (CM-SP-MULPIv3.1, 7.2): flows that asked for more than they are granted.
    pub pending: Sids,
}

/// The elements of an operator's part of a MAP, whose spans are the minislots of its slice, each in exactly one. Contracts
/// see the three fields.
#[derive(Debug)]
pub struct Elements {
    fields: ElementsFields,
}

/// Written out, so that the crates above prove nothing of how the parts of a frame are dropped.
impl Drop for Elements {
    fn drop(self) {
        let Elements { fields: _ } = self;
    }
}

impl Model for Elements {
    ghost Value = { ElementsFields };

    ghost view = { λ e. e.fields };

    ghost invariant = { λ e. IsTiled e.fields };
}

impl Elements {
    /// Returns these elements. The caller knows that the spans tile the slice.
    pub fn new(fields: ElementsFields) -> Elements
        requires { IsTiled fields }
        ensures { result ≡ fields }
    {
        Elements { fields }
    }

    /// Returns the minislots that are the operator's.
    pub fn get_slice(&self) -> Slice
        ensures { result ≡ self.now.slice }
    {
        self.fields.slice
    }

    /// Returns who is granted which minislots of the slice, in their order.
    pub fn get_spans(&self) -> &[Span]
        ensures { result.now ≡ self.now.spans }
    {
        self.fields.spans.as_slice()
    }

    /// Returns the SIDs of flows that asked for more than they are granted.
    pub fn get_pending(&self) -> &[u16]
        ensures { result.now ≡ self.now.pending }
    {
        self.fields.pending.as_slice()
    }

    /// States what all elements keep, for a caller's proof: the spans tile the slice. Does nothing.
    pub fn always(&self)
        ensures { IsTiled self.now }
    {
        // For the proof: what the type keeps, which is known where a field is read.
        let _ = &self.fields;
    }

    /// Returns equal elements with memory of their own.
    pub fn copy(&self, alloc: Global) -> Result<Elements, AllocError>
        ensures { IfOk result (λ elements. elements ≡ self.now) }
    {
        Ok(Elements {
            fields: ElementsFields {
                slice: self.fields.slice,
                spans: self.fields.spans.copy(alloc)?,
                pending: self.fields.pending.copy(alloc)?,
            },
        })
    }

    /// Returns the three fields, without a copy.
    pub(crate) fn into_fields(self) -> ElementsFields
        ensures { result ≡ self }
    {
        let Elements { fields } = self;
        fields
    }

    /// Returns equal elements, in the memory of others that nobody needs any more, if there are any.
    pub fn copy_in(&self, alloc: Global, spent: Option<Elements>) -> Result<Elements, AllocError>
        // What an Ok holds does not depend on the memory of the others.
        ensures { IfOk result (λ elements. elements ≡ self.now) }
    {
        match spent {
            None => self.copy(alloc),
            Some(spent) => self.copy_over(spent),
        }
    }

    /// Returns equal elements, in the memory of others.
    fn copy_over(&self, spent: Elements) -> Result<Elements, AllocError>
        ensures { IfOk result (λ elements. elements ≡ self.now) }
    {
        let spent = spent.into_fields();
        let mut spans = spent.spans.into_vec();
        let mut pending = spent.pending.into_vec();
        copy_into(&mut spans, self.fields.spans.as_slice())?;
        copy_into(&mut pending, self.fields.pending.as_slice())?;
        Ok(Elements {
            fields: ElementsFields {
                slice: self.fields.slice,
                spans: Listed::from_vec(spans),
                pending: Listed::from_vec(pending),
            },
        })
    }
}
