//! What becomes of a request: the checks that ask for room.

ghost use Rattle.std.specs.Prelude.{◌≡◌, ◌<◌, ◌≤◌, IfOk, IfSome, Some, length};
ghost use Rattle.admission.specs.Free.{IsLeastFree};
ghost use Rattle.dsx_messages.specs.declared.kind.Kind.TheVariants.{Dsa, Dsc, Dsd};
ghost use Rattle.flow_table.specs.Table.{flow_at, sids_of, HasRoomFor};
ghost use Rattle.operator_model.specs.Asked.{transaction, free_flow, addition_of, change_of};
ghost use Rattle.operator_model.specs.Verdict.{put_within_limit, addition_within_limit, added_under, changed_with, change_within_limit, verdict, limit_of, no_room, new_flow, added_reply, changed_flow, changed_reply, wants_sid, addition_verdict, change_verdict, deletion_verdict};
ghost use Rattle.operator_book.specs.Choices.{is_new_sid};
ghost use Rattle.operator_book.specs.Held.{flow_table_of, verdict_of, HasOwnSids, MayPut};

use crate::asked::{addition_of, change_of, free_flow};
use crate::boxed_verdict::BoxedVerdict;
use crate::machine::MachineState;
use crate::refusal::refusal;
use admission::Budget;
use dsx_messages::{Code, Detail, Kind, Modem, Reply, ReplyFields, Request};
use flow_table::{Flow, Pending};
use operator_model::{Addition, Change, Transaction};
use param_sets::Sets;
use std::alloc::{AllocError, Global};
use tlv24::FlowTlv;

/// Where the SID of a changed flow comes from.
#[derive(Clone, Copy)]
pub(crate) enum SidOrigin {
    /// The flow keeps the SID that it has, or has none.
    Kept,
    /// The flow gets a free SID of the row's range.
    New,
}

/// Returns the refusal of a request for which there is no room.
fn no_room(kind: Kind, tid: u16) -> BoxedVerdict
    ensures { verdict_of result ≡ no_room kind tid }
{
    BoxedVerdict::Refused {
        reply: refusal(kind, tid, Code::RejectTemporary),
    }
}

/// Returns a flow that was added in this frame, and waits.
fn new_flow(modem: Modem, frame: u32, sets: Sets, sid: u16) -> Flow
    ensures { result ≡ new_flow modem frame sets sid }
{
    Flow {
        modem,
        sid: Some(sid),
        sets: Sets::dynamic(),
        pending: Some(Pending {
            sets,
            sid_is_new: true,
        }),
        start: frame,
        backlog: 0,
        since: frame,
    }
}

/// Returns the reply to an addition that is accepted.
fn added_reply(tid: u16, reference: u16, sfid: u32, sid: u16) -> Reply
    requires { sid ≤ 8191 }
    ensures { result ≡ added_reply tid reference sfid sid }
{
    Reply::new(ReplyFields {
        kind: Kind::Dsa,
        tid,
        code: Code::Okay,
        detail: Detail::Given {
            reference: Some(reference),
            sfid,
            sid: Some(sid),
        },
    })
}

/// Returns whether a change gives its flow a SID that the flow had not.
fn is_new_sid(origin: SidOrigin) -> bool
    ensures { result ≡ is_new_sid origin }
{
    match origin {
        SidOrigin::Kept => false,
        SidOrigin::New => true,
    }
}

/// Returns a flow of which a change waits.
fn changed_flow(change: &Change, sid: Option<u16>, origin: SidOrigin) -> Flow
    ensures { result ≡ changed_flow change.now sid (is_new_sid origin) }
{
    Flow {
        sid,
        pending: Some(Pending {
            sets: change.sets,
            sid_is_new: is_new_sid(origin),
        }),
        ..change.flow
    }
}

/// Returns the reply to a change that is accepted.
fn changed_reply(tid: u16, sfid: u32, sets: Sets, sid: Option<u16>) -> Reply
    requires { IfSome sid (λ n. n ≤ 8191) }
    ensures { result ≡ changed_reply tid sfid sets sid }
{
    let sid = if sets.get_admitted().is_some() {
        sid
    } else {
        None
    };
    Reply::new(ReplyFields {
        kind: Kind::Dsc,
        tid,
        code: Code::Okay,
        detail: Detail::Given {
            reference: None,
            sfid,
            sid,
        },
    })
}

/// Returns whether a change needs a SID that the flow has not.
fn wants_sid(change: &Change) -> bool
    ensures { result ≡ wants_sid change.now }
{
    change.sets.get_admitted().is_some() && change.flow.sid.is_none()
}

impl MachineState {
    /// Returns what may be committed: the budget in force, and while another waits the smaller of
    /// the two; and the quota of elements.
    fn limit(&self) -> Budget
        ensures { result ≡ limit_of self.now }
    {
        let budget = match self.next {
            None => self.share.budget,
            Some(next) => self.share.budget.min(next.share.budget),
        };
        Budget {
            minislots: u32::from(budget),
            elements: u32::from(self.row.get_fields().elements),
        }
    }

    /// Returns a number of the row's range as a SID.
    fn sid_of(&self, number: u32) -> u16
        requires { number ≤ self.now.row.sids.last }
        ensures value { result ≡ number }
        ensures range { result ≤ 8191 }
    {
        // For the proof: what the type of `self.row.get_fields()` keeps.
        let _row = self.row.get_fields();
        number as u16
    }

    /// Returns a flow that is put under an SFID, unless more would be committed with it than may
    /// be.
    #[inline(always)]
    fn put_within_limit(
        &self,
        alloc: Global,
        kind: Kind,
        tid: u16,
        sfid: u32,
        flow: Flow,
        reply: Reply,
    ) -> Result<BoxedVerdict, AllocError>
        requires { HasRoomFor (flow_table_of self.now) sfid flow }
        ensures value { IfOk result (λ v. verdict_of v ≡ put_within_limit self.now kind tid sfid flow reply) }
        ensures puts { IfOk result (λ v. MayPut (flow_table_of self.now) (verdict_of v)) }
    {
        match self.flows.fits(self.limit(), sfid, &flow) {
            Ok(()) => Ok(BoxedVerdict::Put {
                sfid,
                flow: Box::new(alloc, flow)?,
                reply,
            }),
            Err(_) => Ok(no_room(kind, tid)),
        }
    }

    /// Returns an addition, where there is room for it.
    #[tactic(auto, unfolding(operator_model::specs::Verdict::addition_within_limit))]
    #[inline(always)]
    fn addition_within_limit(
        &self,
        alloc: Global,
        modem: Modem,
        tid: u16,
        addition: &Addition,
    ) -> Result<BoxedVerdict, AllocError>
        ensures value { IfOk result (λ v. verdict_of v ≡ addition_within_limit self.now modem tid addition.now) }
        ensures puts { IfOk result (λ v. MayPut (flow_table_of self.now) (verdict_of v)) }
    {
        let row = self.row.get_fields();
        if self.flows.len() >= usize::from(row.flows) {
            return Ok(no_room(Kind::Dsa, tid));
        }
        let sfid = self.flows.free_sfid(&row.sfids);
        let sid = self.flows.free_sid(&row.sids);
        self.added_under(alloc, modem, tid, addition, sfid, sid)
    }

    /// Returns an addition under identifiers that are free.
    #[inline(always)]
    fn added_under(
        &self,
        alloc: Global,
        modem: Modem,
        tid: u16,
        addition: &Addition,
        sfid: Option<u32>,
        sid: Option<u32>,
    ) -> Result<BoxedVerdict, AllocError>
        requires room { length self.now.state.flows < self.now.row.flows }
        requires free { IfSome sid (IsLeastFree self.now.row.sids (sids_of self.now.state.flows)) }
        ensures puts { IfOk result (λ v. MayPut (flow_table_of self.now) (verdict_of v)) }
        ensures value { IfOk result (λ v. verdict_of v ≡ added_under self.now modem tid addition.now sfid sid) }
    {
        let (Some(sfid), Some(sid)) = (sfid, sid) else {
            return Ok(no_room(Kind::Dsa, tid));
        };
        // For the proof: what always holds of `self.flows`.
        self.flows.always();
        let sid = self.sid_of(sid);
        let flow = new_flow(modem, self.frame, addition.sets, sid);
        let reply = added_reply(tid, addition.reference, sfid, sid);
        self.put_within_limit(alloc, Kind::Dsa, tid, sfid, flow, reply)
    }

    /// Returns a change of a flow to this SID, where there is room for it.
    fn changed_with(
        &self,
        alloc: Global,
        tid: u16,
        change: &Change,
        sid: Option<u16>,
        origin: SidOrigin,
    ) -> Result<BoxedVerdict, AllocError>
        requires stands { HasRoomFor (flow_table_of self.now) change.now.sfid (changed_flow change.now sid (is_new_sid origin)) }
        requires range { IfSome sid (λ n. n ≤ 8191) }
        ensures puts { IfOk result (λ v. MayPut (flow_table_of self.now) (verdict_of v)) }
        ensures value { IfOk result (λ v. verdict_of v ≡ changed_with self.now tid change.now sid (is_new_sid origin)) }
    {
        let flow = changed_flow(change, sid, origin);
        let reply = changed_reply(tid, change.sfid, change.sets, sid);
        self.put_within_limit(alloc, Kind::Dsc, tid, change.sfid, flow, reply)
    }

    /// Returns a change, where there is room for it.
    #[tactic(auto, unfolding(operator_model::specs::Verdict::change_within_limit))]
    fn change_within_limit(
        &self,
        alloc: Global,
        tid: u16,
        change: &Change,
    ) -> Result<BoxedVerdict, AllocError>
        requires there { flow_at change.now.sfid self.now.state.flows ≡ Some change.now.flow }
        requires range { IfSome change.now.flow.sid (λ n. n ≤ 8191) }
        ensures value { IfOk result (λ v. verdict_of v ≡ change_within_limit self.now tid change.now) }
        ensures puts { IfOk result (λ v. MayPut (flow_table_of self.now) (verdict_of v)) }
    {
        // For the proof: what always holds of `self.flows`.
        self.flows.always();
        if !wants_sid(change) {
            return self.changed_with(alloc, tid, change, change.flow.sid, SidOrigin::Kept);
        }
        match self.flows.free_sid(&self.row.get_fields().sids) {
            None => Ok(no_room(Kind::Dsc, tid)),
            Some(sid) => {
                self.changed_with(alloc, tid, change, Some(self.sid_of(sid)), SidOrigin::New)
            }
        }
    }

    /// Returns what becomes of an addition.
    #[inline(always)]
    fn addition_verdict(
        &self,
        alloc: Global,
        modem: Modem,
        tid: u16,
        encodings: &[FlowTlv],
    ) -> Result<BoxedVerdict, AllocError>
        ensures value { IfOk result (λ v. verdict_of v ≡ addition_verdict self.now modem tid
            (addition_of self.now.consts (transaction modem Dsa tid) encodings.now)) }
        ensures puts { IfOk result (λ v. MayPut (flow_table_of self.now) (verdict_of v)) }
    {
        let t = Transaction {
            modem,
            kind: Kind::Dsa,
            tid,
        };
        match addition_of(&self.consts, t, encodings) {
            Err(reply) => Ok(BoxedVerdict::Refused { reply }),
            Ok(addition) => self.addition_within_limit(alloc, modem, tid, &addition),
        }
    }

    /// Returns what becomes of a change.
    fn change_verdict(
        &self,
        alloc: Global,
        modem: Modem,
        tid: u16,
        encodings: &[FlowTlv],
    ) -> Result<BoxedVerdict, AllocError>
        requires { HasOwnSids self.now }
        ensures value { IfOk result (λ v. verdict_of v ≡ change_verdict self.now tid
            (change_of self.now.consts self.now.state.flows (transaction modem Dsc tid) encodings.now)) }
        ensures puts { IfOk result (λ v. MayPut (flow_table_of self.now) (verdict_of v)) }
    {
        let t = Transaction {
            modem,
            kind: Kind::Dsc,
            tid,
        };
        match change_of(&self.consts, &self.flows, t, encodings) {
            Err(reply) => Ok(BoxedVerdict::Refused { reply }),
            Ok(change) => {
                // For the proof: what the type of `self.row.get_fields()` keeps.
                let _row = self.row.get_fields();
                self.change_within_limit(alloc, tid, &change)
            }
        }
    }

    /// Returns what becomes of a deletion.
    fn deletion_verdict(&self, modem: Modem, tid: u16, sfid: u32) -> BoxedVerdict
        ensures { verdict_of result ≡ deletion_verdict tid sfid
            (free_flow (transaction modem Dsd tid) (flow_at sfid self.now.state.flows)) }
    {
        let t = Transaction {
            modem,
            kind: Kind::Dsd,
            tid,
        };
        match free_flow(t, self.flows.get(sfid)) {
            Err(reply) => BoxedVerdict::Refused { reply },
            Ok(_) => BoxedVerdict::Deleted {
                sfid,
                reply: Reply::new(ReplyFields {
                    kind: Kind::Dsd,
                    tid,
                    code: Code::Okay,
                    detail: Detail::Nothing,
                }),
            },
        }
    }

    /// Returns what becomes of a request whose transaction is new: the first check of the table
    /// that holds decides.
    #[tactic(auto, unfolding(operator_model::specs::Verdict::verdict))]
    #[inline(always)]
    pub(crate) fn verdict(
        &self,
        alloc: Global,
        modem: Modem,
        request: &Request,
    ) -> Result<BoxedVerdict, AllocError>
        requires { HasOwnSids self.now }
        ensures value { IfOk result (λ v. verdict_of v ≡ verdict self.now modem request.now) }
        ensures puts { IfOk result (λ v. MayPut (flow_table_of self.now) (verdict_of v)) }
    {
        match request {
            Request::Dsa { tid, flows } => {
                self.addition_verdict(alloc, modem, *tid, flows.as_slice())
            }
            Request::Dsc { tid, flows } => {
                self.change_verdict(alloc, modem, *tid, flows.as_slice())
            }
            Request::Dsd { tid, sfid } => Ok(self.deletion_verdict(modem, *tid, *sfid)),
        }
    }
}
