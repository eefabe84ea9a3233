//! Service classes: named encodings that a flow's own encoding is stated over.

ghost use Rattle.std.specs.Prelude.{◌≡◌, find};
ghost use Rattle.std.specs.Option.{option_copied};
ghost use Rattle.plant.specs.Classes.{is_class_named, class_of};

use lists::Listed;
use tlv24::{ClassName, FlowTlv};

/// A service class of the plant file.
#[derive(Clone, Copy, Debug, PartialEq, Eq)]
pub struct Class {
    /// Its name: 1 to 15 ASCII letters or digits.
    pub name: ClassName,
    /// What a flow of this class asks for where its own encoding states nothing else: none of the subtypes 1 to 6.
    pub encoding: FlowTlv,
}

impl Class {
    /// Returns whether this is the class of that name.
    pub fn is_named(&self, name: &ClassName) -> bool
        ensures { result ≡ is_class_named name.now self.now }
    {
        self.name.as_slice() == name.as_slice()
    }
}

/// The service classes of a plant.
pub type Classes = Listed<Class>;

/// Returns the class of this name.
fn find_class<'a>(classes: &'a [Class], name: &ClassName) -> Option<&'a Class>
    ensures { option_copied result ≡ find (is_class_named name.now) classes.now }
{
    classes.iter().find(|class| class.is_named(name))
}

/// Returns the encoding of the class of this name, if there is one. Takes no memory.
pub(crate) fn find_encoding<'a>(classes: &'a [Class], name: &ClassName) -> Option<&'a FlowTlv>
    ensures { option_copied result ≡ class_of name.now classes.now }
{
    match find_class(classes, name) {
        Some(class) => Some(&class.encoding),
        None => None,
    }
}
