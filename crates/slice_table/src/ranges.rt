//! Which numbers may be under a key of the plant file, and which one is meant where the key is not
//! there.

ghost use Rattle.std.specs.Prelude.{◌≡◌, ◌≤◌, IfSome};
ghost use Rattle.slice_table.specs.Ranges.{range_of, default_of};

use crate::plant_key::Field;

/// The numbers from `low` to `high`.
#[derive(Clone, Copy)]
pub struct Bounds {
    pub low: u32,
    pub high: u32,
}

/// Returns the numbers from `low` to `high`.
fn between(low: u32, high: u32) -> Bounds
    ensures { result ≡ record { low = low; high = high } }
{
    Bounds { low, high }
}

/// Returns the numbers that may be under a key, alone or in a pair. The head is not here, since its
/// greatest is the frame's. The other keys have no number.
pub(crate) fn range_of(field: Field) -> Bounds
    ensures { result ≡ range_of field }
{
    match field {
        Field::FrameMinislots => between(1, 4_096),
        Field::FrameUs => between(1, 1_000_000),
        Field::BytesPerMinislot => between(1, 65_535),
        Field::ShortMax => between(0, 4_096),
        Field::Channel | Field::UcdCount => between(0, 255),
        Field::RangingStart | Field::RangingEnd => between(0, 15),
        Field::DataStart | Field::DataEnd => between(0, 15),
        Field::AckWait => between(1, 65_535),
        Field::Resends => between(0, 255),
        Field::Hold => between(1, 65_535),
        Field::FirstFrame => between(0, u32::MAX),
        Field::Sfids => between(1, u32::MAX),
        Field::Sids => between(1, 8_191),
        Field::Flows => between(1, 1_024),
        Field::Transactions => between(1, 256),
        Field::Inbox => between(1, 256),
        Field::Budget => between(0, 4_096),
        Field::Elements => between(0, 235),
        Field::Step => between(1, 255),
        _ => between(1, 0),
    }
}

/// Returns the number that is meant where there is no such key; `None` where the key has to be
/// there.
pub(crate) fn default_of(field: Field) -> Option<u32>
    ensures value { result ≡ default_of field }
    ensures in_range { IfSome result (λ n. ((range_of field).low ≤ n) × (n ≤ (range_of field).high)) }
{
    match field {
        Field::RangingStart | Field::RangingEnd => Some(0),
        Field::DataStart | Field::DataEnd => Some(0),
        Field::AckWait => Some(150),
        Field::Resends => Some(3),
        Field::Hold => Some(1_500),
        Field::FirstFrame => Some(0),
        _ => None,
    }
}
