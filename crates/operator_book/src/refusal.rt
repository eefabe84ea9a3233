//! Replies that refuse a request.

ghost use Rattle.std.specs.Prelude.{◌≡◌, ◌≢◌, IfSome};
ghost use Rattle.dsx_messages.specs.WellFormed.{IsFlowIdOf};
ghost use Rattle.dsx_messages.specs.declared.code.Code.TheVariants.{Okay};
ghost use Rattle.dsx_messages.specs.declared.kind.Kind.TheVariants.{Dsd};
ghost use Rattle.dsx_messages.specs.declared.reply.Detail.TheVariants.{Errored};
ghost use Rattle.operator_model.specs.Asked.{refusal, id_of, refusal_naming};
ghost use Rattle.operator_model.specs.Verdict.{encoding_refusal};

use dsx_messages::{Code, Detail, FlowId, Kind, Reply, ReplyFields};
use operator_model::Transaction;
use tlv24::{FlowTlv, TlvFault};

/// Returns a refusal that names nothing.
#[tactic(auto, using(crate::proofs::Replies::refuses))]
pub(crate) fn refusal(kind: Kind, tid: u16, code: Code) -> Reply
    requires { code ≢ Okay }
    ensures { result ≡ refusal kind tid code }
{
    Reply::new(ReplyFields {
        kind,
        tid,
        code,
        detail: Detail::Nothing,
    })
}

/// Returns how a request of this kind names the flow of an encoding.
fn id_of(kind: Kind, flow: &FlowTlv) -> Option<FlowId>
    ensures value { result ≡ id_of kind flow.now }
    ensures names { IfSome result (IsFlowIdOf kind) }
{
    match kind {
        Kind::Dsa => Some(FlowId::Reference(flow.get_reference()?)),
        Kind::Dsc => Some(FlowId::Sfid(flow.get_sfid()?)),
        Kind::Dsd => None,
    }
}

/// Returns a refusal that names an identifier and a subtype.
#[tactic(auto, using(crate::proofs::Replies::refuses_naming))]
pub(crate) fn naming(kind: Kind, tid: u16, code: Code, id: Option<FlowId>, subtype: u8) -> Reply
    requires kind { kind ≢ Dsd }
    requires code { code ≢ Okay }
    requires names { IfSome id (IsFlowIdOf kind) }
    ensures { result ≡ record { kind = kind; tid = tid; code = code; detail = Errored id subtype } }
{
    Reply::new(ReplyFields {
        kind,
        tid,
        code,
        detail: Detail::Errored { id, subtype },
    })
}

/// Returns a refusal that names an encoding and one of its subtypes.
pub(crate) fn refusal_naming(t: Transaction, code: Code, flow: &FlowTlv, subtype: u8) -> Reply
    requires kind { t.kind ≢ Dsd }
    requires code { code ≢ Okay }
    ensures { result ≡ refusal_naming t code flow.now subtype }
{
    naming(t.kind, t.tid, code, id_of(t.kind, flow), subtype)
}

/// Returns a refusal of what could not be read.
pub(crate) fn encoding_refusal(kind: Kind, tid: u16, id: Option<FlowId>, fault: TlvFault) -> Reply
    requires kind { kind ≢ Dsd }
    requires names { IfSome id (IsFlowIdOf kind) }
    ensures { result ≡ encoding_refusal kind tid id fault }
{
    match fault {
        TlvFault::Cut { at: _ } | TlvFault::NoMemory => refusal(kind, tid, Code::RejectOther),
        TlvFault::WrongLength { subtype } => {
            naming(kind, tid, Code::RejectUnrecognizedSetting, id, subtype)
        }
        TlvFault::Twice { subtype } | TlvFault::Range { subtype } => {
            naming(kind, tid, Code::RejectInvalidForContext, id, subtype)
        }
    }
}
