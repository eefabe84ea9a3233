//! The head of an output: what it is, and how long its bytes and its grants are.

ghost use Rattle.std.specs.Prelude.{◌≡◌};
ghost use Rattle.channel_c.specs.Output.{cause_number, address_of, head_alone, head_under, head_of};

use dsx_messages::Modem;
use operator_model::{Cause, Output};
use run_model::Out;

/// What an output is, and how long its bytes and its grants are.
#[repr(C)]
#[derive(Clone, Copy)]
pub struct OutputHead {
    /// 1: a reply. 2: why there is no reply. 3: a frame of an operator. 4: a MAP.
    pub kind: u32,
    /// Why there is no reply, 1 to 9; else 0.
    pub cause: u32,
    /// The place of the operator in the plant file, from 0; of a MAP 0.
    pub operator: usize,
    /// The number of the frame, of a frame and of a MAP; else 0.
    pub frame: u32,
    /// The modem of a reply, or of none; zeros if there is no modem.
    pub modem: [u8; 6],
    /// How many bytes the reply or the MAP has.
    pub length: usize,
    /// How many spans of minislots a frame has.
    pub granted: usize,
    /// How many grants pending a frame has.
    pub pending: usize,
}

/// Returns the number of a cause: 1 to 9, in the order in which the causes are declared.
fn cause_number(cause: Cause) -> u32
    ensures { result ≡ cause_number cause }
{
    match cause {
        Cause::InboxFull => 1,
        Cause::Idle => 2,
        Cause::Empty => 3,
        Cause::NotOurs => 4,
        Cause::Short => 5,
        Cause::TidInUse => 6,
        Cause::UnknownAck => 7,
        Cause::NoSuchSid => 8,
        Cause::NotRequesting => 9,
    }
}

/// Returns the bytes of an address; zeros for no modem.
fn address_of(modem: Option<Modem>) -> [u8; 6]
    ensures { result ≡ address_of modem }
{
    match modem {
        Some(modem) => modem.0,
        None => [0, 0, 0, 0, 0, 0],
    }
}

/// Returns the head of an output of this kind that has no bytes and no grants.
fn head_alone(kind: u32, operator: usize, modem: [u8; 6]) -> OutputHead
    ensures { result ≡ head_alone kind operator modem }
{
    OutputHead {
        kind,
        cause: 0,
        operator,
        frame: 0,
        modem,
        length: 0,
        granted: 0,
        pending: 0,
    }
}

/// Returns the head of an operator's output.
fn head_under(op: usize, output: &Output) -> OutputHead
    ensures { result ≡ head_under op output.now }
{
    match output {
        Output::Reply { modem, bytes } => {
            let address = modem.0;
            let mut head = head_alone(1, op, address);
            head.length = bytes.len();
            head
        }
        Output::Silent { modem, cause } => {
            let address = address_of(*modem);
            let mut head = head_alone(2, op, address);
            head.cause = cause_number(*cause);
            head
        }
        Output::Frame { number, elements } => {
            let address = address_of(None);
            let mut head = head_alone(3, op, address);
            head.frame = *number;
            head.granted = elements.get_spans().len();
            head.pending = elements.get_pending().len();
            head
        }
    }
}

/// Returns the head of an output.
pub fn head_of(out: &Out) -> OutputHead
    ensures { result ≡ head_of out.now }
{
    match out {
        Out::Of { op, output } => head_under(*op, output),
        Out::Map(made) => {
            let address = address_of(None);
            let mut head = head_alone(4, 0, address);
            head.frame = made.frame;
            head.length = made.bytes.len();
            head
        }
    }
}
