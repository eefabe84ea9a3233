//! The keys of each table of a plant file, in the order in which they are judged.

ghost use Rattle.std.specs.Prelude.{◌≡◌};
ghost use Rattle.slice_table.specs.file_keys.Keys.{plant_fields, class_fields, operator_fields, flow_fields};

use crate::Field;

/// Returns the keys of the table `plant`.
pub fn plant_fields() -> [Field; 15]
    ensures { result ≡ plant_fields }
{
    [
        Field::FrameMinislots,
        Field::Head,
        Field::FrameUs,
        Field::BytesPerMinislot,
        Field::ShortMax,
        Field::Channel,
        Field::UcdCount,
        Field::RangingStart,
        Field::RangingEnd,
        Field::DataStart,
        Field::DataEnd,
        Field::AckWait,
        Field::Resends,
        Field::Hold,
        Field::FirstFrame,
    ]
}

/// Returns the keys of a class.
pub fn class_fields() -> [Field; 2]
    ensures { result ≡ class_fields }
{
    [Field::Name, Field::Encoding]
}

/// Returns the keys of an operator.
pub fn operator_fields() -> [Field; 13]
    ensures { result ≡ operator_fields }
{
    [
        Field::Name,
        Field::Slice,
        Field::Sfids,
        Field::Sids,
        Field::Flows,
        Field::Transactions,
        Field::Inbox,
        Field::Budget,
        Field::Elements,
        Field::Policy,
        Field::Step,
        Field::Modems,
        Field::Flow,
    ]
}

/// Returns the keys of a provisioned flow.
pub fn flow_fields() -> [Field; 2]
    ensures { result ≡ flow_fields }
{
    [Field::Modem, Field::Encoding]
}
