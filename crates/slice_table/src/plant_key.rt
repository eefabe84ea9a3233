//! Where something is in a plant file.

ghost use Rattle.std.specs.Prelude.{◌≡◌, Some};
ghost use Rattle.slice_table.specs.Keys.{field_text, place_text, key_text};

use std::fmt::{self, Display};

/// The name of a key of the plant file.
#[derive(Clone, Copy, Debug, PartialEq, Eq)]
pub enum Field {
    FrameMinislots,
    Head,
    FrameUs,
    BytesPerMinislot,
    ShortMax,
    Channel,
    UcdCount,
    RangingStart,
    RangingEnd,
    DataStart,
    DataEnd,
    AckWait,
    Resends,
    Hold,
    FirstFrame,
    Name,
    Encoding,
    Slice,
    Sfids,
    Sids,
    Flows,
    Transactions,
    Inbox,
    Budget,
    Elements,
    Policy,
    Step,
    Modems,
    Flow,
    Modem,
}

impl Field {
    /// Writes the key as it is written in the file.
    #[tactic(auto, unfolding(crate::specs::Keys::field_text))]
    pub fn text(self) -> &'static str
        ensures { result.now ≡ field_text self }
    {
        match self {
            Field::FrameMinislots => "frame_minislots",
            Field::Head => "head",
            Field::FrameUs => "frame_us",
            Field::BytesPerMinislot => "bytes_per_minislot",
            Field::ShortMax => "short_max",
            Field::Channel => "channel",
            Field::UcdCount => "ucd_count",
            Field::RangingStart => "ranging_start",
            Field::RangingEnd => "ranging_end",
            Field::DataStart => "data_start",
            Field::DataEnd => "data_end",
            Field::AckWait => "ack_wait",
            Field::Resends => "resends",
            Field::Hold => "hold",
            Field::FirstFrame => "first_frame",
            Field::Name => "name",
            Field::Encoding => "encoding",
            Field::Slice => "slice",
            Field::Sfids => "sfids",
            Field::Sids => "sids",
            Field::Flows => "flows",
            Field::Transactions => "transactions",
            Field::Inbox => "inbox",
            Field::Budget => "budget",
            Field::Elements => "elements",
            Field::Policy => "policy",
            Field::Step => "step",
            Field::Modems => "modems",
            Field::Flow => "flow",
            Field::Modem => "modem",
        }
    }
}

/// A table of the plant file. Tables of an array are counted from 0.
#[derive(Clone, Copy, Debug, PartialEq, Eq)]
pub enum Place {
    /// The table `plant`.
    Plant,
    /// A table of the array `class`.
    Class(usize),
    /// A table of the array `operator`.
    Operator(usize),
    /// A table of the array `flow` of the operator at the first number.
    Flow(usize, usize),
}

impl Display for Place {
    ghost output = { λ place. Some (place_text place) };

    fn fmt<W: fmt::Write>(&self, f: &mut fmt::Formatter<W>) -> fmt::Result {
        match *self {
            Place::Plant => f.write_str("plant"),
            Place::Class(class) => write!(f, "class[{class}]"),
            Place::Operator(operator) => write!(f, "operator[{operator}]"),
            Place::Flow(operator, flow) => write!(f, "operator[{operator}].flow[{flow}]"),
        }
    }
}

/// A key of the plant file, shown as `operator[2].flow[0].modem`.
#[derive(Clone, Copy, Debug, PartialEq, Eq)]
pub enum Key {
    /// The array `class`.
    Classes,
    /// The array `operator`.
    Operators,
    /// The place of a table.
    Table(Place),
    /// A key of a table.
    Entry(Place, Field),
}

impl Display for Key {
    ghost output = { λ key. Some (key_text key) };

    fn fmt<W: fmt::Write>(&self, f: &mut fmt::Formatter<W>) -> fmt::Result {
        match *self {
            Key::Classes => f.write_str("class"),
            Key::Operators => f.write_str("operator"),
            Key::Table(place) => Display::fmt(&place, f),
            Key::Entry(place, field) => {
                let field = field.text();
                write!(f, "{place}.{field}")
            }
        }
    }
}
