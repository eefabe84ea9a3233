//! Inputs of the program, and what is wanted of them where no read and no write fails, typed from the tables of the profile.

use std::alloc::{AllocError, Global};
use test_plants::PLANT;

/// A message of `one`, and the reply to it.
pub(crate) const ADDITION: &str = "0F0001180A010200010601060F0102\n";

pub(crate) const REPLY: &str = "10000100180E0102000102040000010103020101\n";

/// A modem of each operator asks for a flow and for minislots of it, and all tick.
const BOTH: &str = "M 020000000001 0F0001180A010200010601060F0102
M 020000000001 11000100
Q 020000000001 257 5
M 020000000003 0F0001180A010200010601060F0102
M 020000000003 11000100
Q 020000000003 513 3
T
";

/// Returns the plant with that script.
pub(crate) fn script_input(alloc: Global) -> Result<String, AllocError> {
    format!(in alloc; "{PLANT}---\n{BOTH}")
}

/// What `run` writes of the script.
const RUN: &str = "R 020000000001 10000100180E0102000102040000010103020101
R 020000000003 10000100180E0102000102040000020103020201
F A 0 257/6/8/5 0/6/13/27
F B 0 513/5/40/3 0/6/43/29
MAP 0 01010600000000000000000000000000FFFC4000040580080001800D080540280001802B0001C048
";

/// What `history A` writes of it.
const HISTORY: &str = "M 020000000001 0F0001180A010200010601060F0102
W
M 020000000001 11000100
W
Q 020000000001 257 5
W
T
";

/// What `threads` writes of it.
const THREADS: &str = "R 020000000001 10000100180E0102000102040000010103020101
F A 0 257/6/8/5 0/6/13/27
R 020000000003 10000100180E0102000102040000020103020201
F B 0 513/5/40/3 0/6/43/29
MAP 0 01010600000000000000000000000000FFFC4000040580080001800D080540280001802B0001C048
";

/// What `trace` writes of it.
const TRACE: &str = "line 1: M 020000000001 0F0001180A010200010601060F0102
  check 22, accepted
    DSA-RSP to 020000000001, transaction 1: okay, reference 1, SFID 257, SID 257
    SFID 257: no set; waiting: admitted 0 minislots, active 0 minislots
    the budget of 32 minislots holds 0
line 2: M 020000000001 11000100
line 3: Q 020000000001 257 5
line 4: M 020000000003 0F0001180A010200010601060F0102
  check 22, accepted
    DSA-RSP to 020000000003, transaction 1: okay, reference 1, SFID 513, SID 513
    SFID 513: no set; waiting: admitted 0 minislots, active 0 minislots
    the budget of 32 minislots holds 0
line 5: M 020000000003 11000100
line 6: Q 020000000003 513 3
line 7: T
    frame 0 of A
    SID 257: long grant of 5 minislots from 8
    idle: 27 minislots from 13
    frame 0 of B
    SID 513: short grant of 3 minislots from 40
    idle: 29 minislots from 43
    MAP of frame 0 made
";

/// Words, and the status and the text that the script gets under them: no line of a plant is a message of `one`.
pub(crate) const CASES: [(&[&str], u8, &str); 6] = [
    (&["one"], 4, "fault: line 1\n"),
    (&["check"], 0, "ok\n"),
    (&["run"], 0, RUN),
    (&["threads"], 0, THREADS),
    (&["trace"], 0, TRACE),
    (&["history", "A"], 0, HISTORY),
];

/// What `capture` writes of it, as another implementation of its formats does: pcap, the low byte first, of DOCSIS frames. A DSA-REQ of
/// a modem of each operator, the DSA-RSP to it and its DSA-ACK, and the MAP of frame 0.
pub(crate) const CAPTURE: &str = concat!(
    "D4C3B2A1020004000000000000000000050001008F000000",
    "00000000000000002C0000002C000000",
    "C200002645BA0200000000000200000000010014000003020F000001180A010200010601060F01024E325519",
    "00000000000000003100000031000000",
    "C200002BA0610200000000010200000000000019000003021000000100180E01020001020400000101030201016B2470",
    "24",
    "00000000000000002100000021000000",
    "C200001B235002000000000002000000000100090000030211000001002A340114",
    "00000000000000002C0000002C000000",
    "C200002645BA0200000000000200000000030014000003020F000001180A010200010601060F0102A7E1C3F4",
    "00000000000000003100000031000000",
    "C200002BA0610200000000030200000000000019000003021000000100180E01020001020400000201030202016AA7CD",
    "C0",
    "00000000000000002100000021000000",
    "C200001B23500200000000000200000000030009000003021100000100B5AA3AF8",
    "00000000000000004600000046000000",
    "C200004075BC01E02F000001020000000000002E00000301030001010600000000000000000000000000FFFC40000405",
    "80080001800D080540280001802B0001C048D887329F",
);
