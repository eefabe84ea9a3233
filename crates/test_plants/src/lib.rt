//! Plant files that tests use, in which two operators, A and B, share a frame of 72 minislots.
#![tactic(auto)]

mod changes;

pub use changes::replace_first;

/// The tables of these names, after the texts that are after the brackets.
macro_rules! tables {
    ([] $($text:tt)*) => { concat!($($text),*) };
    ([shared $($more:ident)*] $($text:tt)*) => {
        tables!([$($more)*] $($text)* "[plant]
frame_minislots = 72
head = 8
frame_us = 2000
bytes_per_minislot = 16
short_max = 4
channel = 1
ucd_count = 1
")
    };
    ([operator_a $($more:ident)*] $($text:tt)*) => {
        tables!([$($more)*] $($text)* "
[[operator]]
name = \"A\"
slice = [8, 32]
sfids = [257, 512]
sids = [257, 272]
flows = 4
transactions = 4
inbox = 4
budget = 32
elements = 8
policy = \"strict\"
modems = [\"020000000001\", \"020000000002\"]
")
    };
    ([operator_b $($more:ident)*] $($text:tt)*) => {
        tables!([$($more)*] $($text)* "
[[operator]]
name = \"B\"
slice = [40, 32]
sfids = [513, 768]
sids = [513, 528]
flows = 4
transactions = 4
inbox = 4
budget = 32
elements = 8
modems = [\"020000000003\"]
")
    };
    ([strict $($more:ident)*] $($text:tt)*) => {
        tables!([$($more)*] $($text)* "policy = \"strict\"\n")
    };
    ([short $($more:ident)*] $($text:tt)*) => {
        tables!([$($more)*] $($text)* "policy = \"short\"\n")
    };
    ([gold $($more:ident)*] $($text:tt)*) => {
        tables!([$($more)*] $($text)* "
[[class]]
name = \"gold\"
encoding = \"0F0102070105\"
")
    };
    ([flow_of_gold $($more:ident)*] $($text:tt)*) => {
        tables!([$($more)*] $($text)* "
[[operator.flow]]
modem = \"020000000001\"
encoding = \"0405676F6C6400060107\"
")
    };
}

/// What the operators share: a head of 8 minislots, and no service class.
pub const SHARED: &str = tables!([shared]);

/// Operator A's table: minislots 8 to 39, the modems 020000000001 and 020000000002.
pub const OPERATOR_A: &str = tables!([operator_a]);

/// A plant of operator A alone.
pub const ALONE: &str = tables!([shared operator_a]);

/// A plant of both operators.
pub const PLANT: &str = tables!([shared operator_a operator_b strict]);

/// A plant of both operators with a class, a flow of it that is provisioned for operator A's first modem, and operator B's backlogs served
/// shortest first.
pub const CLASSED: &str = tables!([shared gold operator_a flow_of_gold operator_b short]);
