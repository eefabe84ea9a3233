//! An object of JSON whose members are texts, numbers and lists of texts.

ghost use Rattle.std.specs.Prelude.{◌≡◌, IfOk, OnOk, string_bytes};
ghost use Rattle.serde_json.specs.Data.{Items, array, no_members, number, put, string, unsigned};
ghost use Rattle.serde_json.specs.View.{items_view, members_view, view};
ghost use Rattle.json_lines.specs.Writable.{AreTexts, AreWritable, IsWritable};
ghost use Rattle.json_lines.specs.Props.{members_prop};
ghost use Rattle.json_lines.specs.Written.{HasWritten, IsObjectOf, with_line};

use serde_json::{Map, Value};
use std::alloc::{AllocError, Global};
use std::io;
use std::io::Write;

/// An object of JSON whose members are texts, numbers and lists of texts.
#[derive(Drop)]
pub struct JsonObject {
    alloc: Global,
    members: Map<String, Value>,
    ghost writable: { AreWritable (members_view members.entries) } by { members_prop (members_view members.entries) },
}

/// Returns a list of the words of a text, which blanks separate.
#[tactic(auto, using(crate::proofs::Puts::texts_with))]
fn words_of(alloc: Global, text: &str) -> Result<Vec<Value>, AllocError>
    ensures { IfOk result (λ words. AreTexts (items_view words.items)) }
{
    let mut words = Vec::new(alloc);
    for word in text.split(' ') {
        if !word.is_empty() {
            words.push(Value::try_from_str(alloc, word)?)?;
        }
    }
    Ok(words)
}

impl JsonObject {
    /// Creates an object without members.
    pub fn new(alloc: Global) -> JsonObject
        ensures { members_view result.members.entries ≡ no_members }
    {
        JsonObject {
            alloc,
            members: Map::new(alloc),
        }
    }

    /// Adds a member, or replaces it.
    #[tactic(auto, using(crate::proofs::Puts::writable_with))]
    fn put_member(&mut self, key: &str, value: Value) -> Result<(), AllocError>
        requires { IsWritable (view value) }
        ensures { OnOk result (members_view self.new.members.entries ≡ put key.now (view value) (members_view self.old.members.entries)) }
    {
        serde_json::put(&mut self.members, self.alloc, key, value)
    }

    /// Adds a member that is a text, or replaces it.
    pub fn put_text(&mut self, key: &str, text: &str) -> Result<(), AllocError>
        ensures { OnOk result (members_view self.new.members.entries ≡ put key.now (string text.now) (members_view self.old.members.entries)) }
    {
        let value = Value::try_from_str(self.alloc, text)?;
        self.put_member(key, value)
    }

    /// Adds a member that is a number, or replaces it.
    pub fn put_number(&mut self, key: &str, value: u64) -> Result<(), AllocError>
        ensures { OnOk result (members_view self.new.members.entries ≡ put key.now (number (unsigned value)) (members_view self.old.members.entries)) }
    {
        self.put_member(key, Value::from(value))
    }

    /// Adds a member that is a list of the words of a text, or replaces it. Blanks separate words. No clause says which words
    /// these are.
    pub fn put_words(&mut self, key: &str, text: &str) -> Result<(), AllocError>
        // Some list of texts is put: which texts, no clause says.
        ensures { OnOk result ((words : Items) × AreTexts words
            × (members_view self.new.members.entries ≡ put key.now (array words) (members_view self.old.members.entries))) }
    {
        let words = words_of(self.alloc, text)?;
        self.put_member(key, Value::Array(words))
    }

    /// Returns the text of the object, with this line as its member `text`.
    #[tactic(auto, using(crate::proofs::OneLine::object_line))]
    fn to_text(mut self, line: &str) -> Result<String, AllocError>
        ensures { IfOk result (λ text. IsObjectOf (with_line line.now (members_view self.members.entries)) (string_bytes text)) }
    {
        self.put_text("text", line)?;
        let JsonObject { alloc, members } = self;
        Value::Object(members).to_string(alloc)
    }
}

/// Writes an object on a line of its own, with a plain line as its member `text`.
pub fn write_object<W: Write>(writer: &mut W, object: JsonObject, line: &str) -> io::Result<()>
    // One text and a line feed, in which there is none. It reads back as the object with just the members that were put
    // in, and the plain line as the member `text`. No clause gives the kind of an error.
    ensures { OnOk result (HasWritten line.now (members_view object.members.entries) (W.contents writer.old) (W.contents writer.new)) }
{
    let text = object.to_text(line)?;
    writer.write_all(text.as_bytes())?;
    writer.write_all(b"\n")
}
