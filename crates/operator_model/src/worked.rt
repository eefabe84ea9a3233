//! The machine worked through on a plant, message by message: what its definitions result in.

ghost use Rattle.std.specs.Prelude.{codes, ◌≡◌, List, [], ◌∷◌, ◌++◌, length, option_map, Some, None};
ghost use Rattle.slice_scheduler.specs.declared.span.Iuc.TheVariants.{Long};
ghost use Rattle.flow_table.specs.Table.{flow_at};
ghost use Rattle.operator_model.specs.Machine.{unfit_of};
ghost use Rattle.operator_model.specs.declared.action.Action.TheVariants.{Arrive, Work, Tick, Reslice};
ghost use Rattle.operator_model.specs.declared.action.Unfit.TheVariants.{NotPast, Unfinished, OffFrame, BudgetOverSlice, OverBudget};
ghost use Rattle.operator_model.specs.declared.heard.Heard.TheVariants.{Message};
ghost use Rattle.operator_model.specs.declared.output.Cause.TheVariants.{Empty, Idle, InboxFull, NoSuchSid, NotOurs, NotRequesting, Short, TidInUse, UnknownAck};
ghost use Rattle.operator_model.specs.declared.output.Output.TheVariants.{Silent};
ghost use Rattle.operator_model.specs.Worked.{worked_consts, worked_row, first_modem, second_modem, hex, message_actions, request_actions, addition, addition_reply, addition_ack, full_addition, answers, after, operator_after, hex_reply, silent, frame_within, frame, span, classed_consts};

/// States that an addition is answered, reported again where it is repeated, and refused for each
/// of these faults and wants.
pub fn worked_additions_compute()
    ensures repeated { answers worked_consts worked_row (message_actions first_modem addition ++ message_actions first_modem addition
        ++ message_actions first_modem addition_ack ++ message_actions first_modem addition)
        ≡ hex_reply first_modem addition_reply ∷ hex_reply first_modem addition_reply ∷ hex_reply first_modem addition_reply ∷ [] }
    ensures one_flow { length (after worked_consts worked_row (message_actions first_modem addition
        ++ message_actions first_modem addition
        ++ message_actions first_modem addition_ack ++ message_actions first_modem addition)).flows
        ≡ 1 }
    ensures other_kind { answers worked_consts worked_row (message_actions first_modem addition
        ++ message_actions first_modem (codes "150001000000000101"))
        ≡ hex_reply first_modem addition_reply ∷ silent first_modem TidInUse ∷ [] }
    ensures cut { answers worked_consts worked_row (message_actions first_modem (codes "0F0003180B010200010601060F0102"))
        ≡ hex_reply first_modem (codes "10000301") ∷ [] }
    ensures skipped { answers worked_consts worked_row
        (message_actions first_modem (codes "0F0002180E010200010601066301FF0F020002"))
        ≡ hex_reply first_modem (codes "10000202180C01020001050601010F020102") ∷ [] }
    ensures interval { answers worked_consts worked_row
        (message_actions first_modem (codes "0F00011817010200010601060F0106130202001404000007CF160101"))
        ≡ hex_reply first_modem (codes "10000117180C010200010506010114020117") ∷ [] }
    ensures of_cmts { answers worked_consts worked_row (message_actions first_modem (codes "0F8000180A010200010601060F0102"))
        ≡ hex_reply first_modem (codes "1080000A") ∷ [] }
    ensures not_kept { (after worked_consts worked_row
        (message_actions first_modem (codes "0F8000180A010200010601060F0102"))).kept ≡ [] }
    ensures last_of_modem { answers worked_consts worked_row (message_actions first_modem (codes "0F7FFF180A010200010601060F0102"))
        ≡ hex_reply first_modem (codes "107FFF00180E0102000102040000010103020101") ∷ [] }
    ensures left_out { answers worked_consts worked_row (message_actions first_modem (codes "0F00011900"))
        ≡ hex_reply first_modem (codes "10000102") ∷ [] }
    ensures no_encoding { answers worked_consts worked_row (message_actions first_modem (codes "0F00021B00"))
        ≡ hex_reply first_modem (codes "10000208") ∷ [] }
    ensures second { answers worked_consts worked_row (message_actions first_modem addition ++ message_actions first_modem addition_ack
        ++ message_actions first_modem (codes "0F0002180A010200020601060F0102"))
        ≡ hex_reply first_modem addition_reply ∷ hex_reply first_modem (codes "10000200180E0102000202040000010203020102")
        ∷ [] }
    ensures few_flows { answers worked_consts (record worked_row { flows = 1 }) (message_actions first_modem addition
        ++ message_actions first_modem addition_ack ++ message_actions first_modem (codes "0F0002180A010200020601060F0102"))
        ≡ hex_reply first_modem addition_reply ∷ hex_reply first_modem (codes "10000203") ∷ [] }
    ensures few_sfids { answers worked_consts
        (record worked_row { sfids = record { first = 257; last = 257 } }) (message_actions first_modem addition
        ++ message_actions first_modem addition_ack ++ message_actions first_modem (codes "0F0002180A010200020601060F0102"))
        ≡ hex_reply first_modem addition_reply ∷ hex_reply first_modem (codes "10000203") ∷ [] }
    ensures few_sids { answers worked_consts
        (record worked_row { sids = record { first = 257; last = 257 } }) (message_actions first_modem addition
        ++ message_actions first_modem addition_ack ++ message_actions first_modem (codes "0F0002180A010200020601060F0102"))
        ≡ hex_reply first_modem addition_reply ∷ hex_reply first_modem (codes "10000203") ∷ [] }
    ensures few_elements { answers worked_consts (record worked_row { elements = 3 }) (message_actions first_modem addition
        ++ message_actions first_modem addition_ack ++ message_actions first_modem (codes "0F0002180A010200020601060F0102"))
        ≡ hex_reply first_modem addition_reply ∷ hex_reply first_modem (codes "10000203") ∷ [] }
{}

/// States that a change is answered and committed, and room is taken and given back by changes and
/// deletions.
pub fn worked_changes_compute()
    ensures changed { answers worked_consts worked_row (message_actions first_modem addition ++ message_actions first_modem addition_ack
        ++ message_actions first_modem
        (codes "12000518120204000001010601020F01020A040000006418120204000001010601040F01020A0400000064")
        ++ message_actions first_modem (codes "14000500")
        ++ message_actions first_modem
        (codes "12000618120204000001010601020F01020A040000006418120204000001010601040F01020A0400000065"))
        ≡ hex_reply first_modem addition_reply ∷ hex_reply first_modem (codes "13000500180A02040000010103020101")
        ∷ hex_reply first_modem (codes "13000617180E020400000101050601010A020117") ∷ [] }
    ensures no_room { answers worked_consts worked_row (message_actions first_modem full_addition
        ++ message_actions first_modem addition_ack ++ message_actions first_modem (codes "0F00021810010200020601060F01020A0400000001")
        ++ message_actions first_modem (codes "150003000000000101")
        ++ message_actions first_modem (codes "0F00041810010200020601060F01020A0400000001"))
        ≡ hex_reply first_modem addition_reply ∷ hex_reply first_modem (codes "10000203")
        ∷ hex_reply first_modem (codes "1600030000")
        ∷ hex_reply first_modem (codes "10000400180E0102000202040000010103020101") ∷ [] }
    ensures room_made { answers worked_consts worked_row (message_actions first_modem full_addition
        ++ message_actions first_modem addition_ack
        ++ message_actions first_modem (codes "12000218190204000001010601060F0106130201001404000007D0160101")
        ++ message_actions first_modem (codes "0F00031810010200020601060F01020A0400000001")
        ++ message_actions first_modem (codes "14000200")
        ++ message_actions first_modem (codes "0F00041810010200020601060F01020A0400000001"))
        ≡ hex_reply first_modem addition_reply ∷ hex_reply first_modem (codes "13000200180A02040000010103020101")
        ∷ hex_reply first_modem (codes "10000303") ∷ hex_reply first_modem (codes "10000400180E0102000202040000010203020102")
        ∷ [] }
    ensures not_owner { answers worked_consts worked_row (message_actions first_modem addition ++ message_actions first_modem addition_ack
        ++ message_actions second_modem (codes "150001000000000101"))
        ≡ hex_reply first_modem addition_reply ∷ hex_reply second_modem (codes "1600010500") ∷ [] }
    ensures few_kept { answers (record worked_consts { timers = record { ack_wait = 150; resends = 3; hold = 2 } })
        (record worked_row { transactions = 1 }) (message_actions first_modem (codes "150001000000000009")
        ++ message_actions first_modem (codes "150002000000000009") ++ Tick ∷ Tick ∷ []
        ++ message_actions first_modem (codes "150002000000000009"))
        ≡ hex_reply first_modem (codes "1600010600") ∷ hex_reply first_modem (codes "1600020300")
        ∷ frame 0 (span 0 Long 8 32 ∷ []) [] ∷ frame 1 (span 0 Long 8 32 ∷ []) []
        ∷ hex_reply first_modem (codes "1600020600") ∷ [] }
{}

/// States that frames are given out, idle and granted; what is not acknowledged is reported again
/// and abandoned; and what is not answered is reported why.
pub fn worked_frames_compute()
    ensures idle { answers worked_consts worked_row (Work ∷ Tick ∷ [])
        ≡ Silent None Idle ∷ frame 0 (span 0 Long 8 32 ∷ []) [] ∷ [] }
    ensures full_inbox { answers worked_consts worked_row (Arrive first_modem (Message (hex addition))
        ∷ Arrive first_modem (Message (hex addition)) ∷ Arrive first_modem (Message (hex addition))
        ∷ Arrive first_modem (Message (hex addition)) ∷ Arrive first_modem (Message (hex addition)) ∷ [])
        ≡ silent first_modem InboxFull ∷ [] }
    ensures not_told { answers worked_consts worked_row (message_actions first_modem (codes "")
        ++ message_actions first_modem (codes "0F00") ++ message_actions first_modem (codes "10000100")
        ++ message_actions first_modem (codes "14000100") ++ request_actions first_modem 999 1)
        ≡ silent first_modem Empty ∷ silent first_modem Short ∷ silent first_modem NotOurs
        ∷ silent first_modem UnknownAck ∷ silent first_modem NoSuchSid ∷ [] }
    ensures unsolicited { answers worked_consts worked_row (message_actions first_modem full_addition
        ++ message_actions first_modem addition_ack ++ request_actions first_modem 257 1 ++ request_actions second_modem 257 1)
        ≡ hex_reply first_modem addition_reply ∷ silent first_modem NotRequesting ∷ silent second_modem NoSuchSid ∷ [] }
    ensures granted { answers worked_consts worked_row (message_actions first_modem addition ++ message_actions first_modem addition_ack
        ++ request_actions first_modem 257 5 ++ Tick ∷ [])
        ≡ hex_reply first_modem addition_reply ∷ frame 0 (span 257 Long 8 5 ∷ span 0 Long 13 27 ∷ []) [] ∷ [] }
    ensures shared { answers worked_consts worked_row (message_actions first_modem addition ++ message_actions first_modem addition_ack
        ++ message_actions first_modem (codes "0F0002180A010200020601060F0102") ++ message_actions first_modem (codes "11000200")
        ++ request_actions first_modem 257 20 ++ request_actions first_modem 258 20 ++ Tick ∷ Tick ∷ [])
        ≡ hex_reply first_modem addition_reply ∷ hex_reply first_modem (codes "10000200180E0102000202040000010203020102")
        ∷ frame 0 (span 257 Long 8 20 ∷ span 258 Long 28 12 ∷ []) (258 ∷ [])
        ∷ frame 1 (span 258 Long 8 8 ∷ span 0 Long 16 24 ∷ []) [] ∷ [] }
    ensures resent { answers (record worked_consts {
      timers =
          record { ack_wait = 2; resends = 2; hold = 1500 };
    }) worked_row (message_actions first_modem addition
        ++ message_actions first_modem addition_ack
        ++ message_actions first_modem (codes "12000218120204000001010601060F01020A0400000064")
        ++ Tick ∷ Tick ∷ Tick ∷ Tick ∷ Tick ∷ Tick ∷ [] ++ message_actions first_modem (codes "14000200"))
        ≡ hex_reply first_modem addition_reply ∷ hex_reply first_modem (codes "13000200180A02040000010103020101")
        ∷ frame 0 (span 0 Long 8 32 ∷ []) [] ∷ hex_reply first_modem (codes "13000200180A02040000010103020101")
        ∷ frame 1 (span 0 Long 8 32 ∷ []) [] ∷ frame 2 (span 0 Long 8 32 ∷ []) []
        ∷ hex_reply first_modem (codes "13000200180A02040000010103020101") ∷ frame 3 (span 0 Long 8 32 ∷ []) []
        ∷ frame 4 (span 0 Long 8 32 ∷ []) [] ∷ frame 5 (span 0 Long 8 32 ∷ []) [] ∷ silent first_modem UnknownAck
        ∷ [] }
    ensures given_up { option_map (λ flow. option_map
        (λ set. set.min_reserved_rate) flow.sets.admitted) (flow_at 257 (after
        (record worked_consts {
          timers =
              record { ack_wait = 2; resends = 2; hold = 1500 };
        }) worked_row (message_actions first_modem addition
        ++ message_actions first_modem addition_ack
        ++ message_actions first_modem (codes "12000218120204000001010601060F01020A0400000064")
        ++ Tick ∷ Tick ∷ Tick ∷ Tick ∷ Tick ∷ Tick ∷ [] ++ message_actions first_modem (codes "14000200"))).flows)
        ≡ Some (Some 0) }
{}

/// States that a flow that names a class has what the class says, and one that names none of the
/// plant is refused.
pub fn worked_classes_compute()
    ensures classed { answers classed_consts worked_row
        (message_actions first_modem (codes "0F0001180E010200010405676F6C6400060106"))
        ≡ hex_reply first_modem addition_reply ∷ [] }
    ensures priority { option_map (λ flow. option_map
        (λ set. set.priority) flow.sets.active)
        (flow_at 257 (after classed_consts worked_row
        (message_actions first_modem (codes "0F0001180E010200010405676F6C6400060106") ++ message_actions first_modem addition_ack)).flows)
        ≡ Some (Some 5) }
    ensures unclassed { answers classed_consts worked_row
        (message_actions first_modem (codes "0F0002180D01020002040474696E00060106"))
        ≡ hex_reply first_modem (codes "10000204180C010200020506010104020104") ∷ [] }
{}

/// States that another slice and budget are taken from their frame on, and not for each of these
/// causes; what is committed fits both budgets until then.
pub fn worked_shares_compute()
    ensures resliced { answers worked_consts worked_row (message_actions first_modem addition ++ message_actions first_modem addition_ack
        ++ request_actions first_modem 257 20 ++ Reslice 1 (record { start = 8; length = 16; budget = 16 }) ∷ Tick ∷ []
        ++ request_actions first_modem 257 20 ++ Tick ∷ [])
        ≡ hex_reply first_modem addition_reply ∷ frame 0 (span 257 Long 8 20 ∷ span 0 Long 28 12 ∷ []) []
        ∷ frame_within (record { start = 8; length = 16 }) 1 (span 257 Long 8 16 ∷ []) (257 ∷ []) ∷ [] }
    ensures fits { unfit_of (operator_after worked_consts worked_row ([])) (Reslice 1
        (record { start = 8; length = 16; budget = 16 })) ≡ None }
    ensures not_past { unfit_of (operator_after worked_consts worked_row ([])) (Reslice 0
        (record { start = 8; length = 16; budget = 16 }))
        ≡ Some NotPast }
    ensures unfinished { unfit_of (operator_after worked_consts worked_row (Reslice 1
        (record { start = 8; length = 16; budget = 16 })
        ∷ [])) (Reslice 2 (record { start = 8; length = 16; budget = 16 }))
        ≡ Some Unfinished }
    ensures off_frame { unfit_of (operator_after worked_consts worked_row ([])) (Reslice 1
        (record { start = 7; length = 16; budget = 16 }))
        ≡ Some OffFrame }
    ensures over_slice { unfit_of (operator_after worked_consts worked_row ([])) (Reslice 1
        (record { start = 8; length = 16; budget = 17 }))
        ≡ Some BudgetOverSlice }
    ensures over_budget { unfit_of (operator_after worked_consts worked_row (message_actions first_modem full_addition
        ++ message_actions first_modem addition_ack)) (Reslice 1 (record { start = 8; length = 16; budget = 16 }))
        ≡ Some OverBudget }
    ensures both_budgets { answers worked_consts worked_row (Reslice 1
        (record { start = 8; length = 16; budget = 16 }) ∷ [] ++ message_actions first_modem full_addition)
        ≡ hex_reply first_modem (codes "10000103") ∷ [] }
{}
