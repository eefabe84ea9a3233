//! Which check decides, worked through on a plant.

ghost use Rattle.std.specs.Prelude.{codes, [], ◌∷◌};
ghost use Rattle.trace_report.specs.declared.table.check.Check.TheVariants.{NoEncoding, IdentifiersDiffer, NotTogether, NoIdentifier, UnknownFlow, NotOwner, FlowWaits, WrongSetType, NoParameterSet, ActiveNotWithin, AdmittedNotWithin, FlowsFull, NoSfidFree, NoSidFree, ElementsOver, MinislotsOver};
ghost use Rattle.trace_report.specs.declared.table.check.MessageCheck.TheVariants.{Faulty};
ghost use Rattle.trace_report.specs.table.Examples.{worked_operator, one_added, full_added, provisioned_row, Decides, HandlesAs};
ghost use Rattle.operator_model.specs.Worked.{worked_row, first_modem, second_modem, message_actions, addition, hex_reply};

/// States which check of the encodings decides.
pub fn worked_encodings()
    ensures no_encoding { Decides (worked_operator worked_row []) first_modem
        (codes "0F00021B00") NoEncoding (codes "10000208") }
    ensures differ { Decides (worked_operator worked_row []) first_modem
        (codes "0F0002180A010200010601060F0102180A010200020601060F0102")
        IdentifiersDiffer (codes "10000213") }
    ensures together { Decides (worked_operator worked_row []) first_modem
        (codes "0F0002180A010200010601060F0102180A010200010601060F0102")
        NotTogether (codes "10000212") }
    ensures no_identifier { Decides (worked_operator worked_row []) first_modem (codes "0F000218060601060F0102")
        NoIdentifier (codes "1000020818080506010101020108") }
    ensures set_type { Decides (worked_operator worked_row []) first_modem (codes "0F0002180A010200010601000F0102")
        WrongSetType (codes "10000217180C010200010506010106020117") }
    ensures interval { Decides (worked_operator worked_row []) first_modem
        (codes "0F00011817010200010601060F0106130202001404000007CF160101")
        NoParameterSet (codes "10000117180C010200010506010114020117") }
{}

/// States which check of the flow decides.
pub fn worked_flows()
    ensures unknown { Decides (worked_operator worked_row []) first_modem
        (codes "150001000000000009") UnknownFlow (codes "1600010600") }
    ensures not_owner { Decides (worked_operator worked_row one_added) second_modem
        (codes "150001000000000101") NotOwner (codes "1600010500") }
    ensures waits { Decides (worked_operator worked_row (message_actions first_modem addition)) first_modem (codes "150002000000000101")
        FlowWaits (codes "1600020300") }
{}

/// States which check of the room decides, where a flow is and another is asked for.
pub fn worked_room()
    ensures flows { Decides (worked_operator (record worked_row { flows = 1 }) one_added) first_modem
        (codes "0F0002180A010200020601060F0102") FlowsFull (codes "10000203") }
    ensures sfids { Decides (worked_operator (record worked_row { sfids = record { first = 257; last = 257 } }) one_added)
        first_modem (codes "0F0002180A010200020601060F0102") NoSfidFree (codes "10000203") }
    ensures sids { Decides (worked_operator (record worked_row { sids = record { first = 257; last = 257 } }) one_added)
        first_modem (codes "0F0002180A010200020601060F0102") NoSidFree (codes "10000203") }
    ensures elements { Decides (worked_operator (record worked_row { elements = 3 }) one_added) first_modem
        (codes "0F0002180A010200020601060F0102") ElementsOver (codes "10000203") }
    ensures minislots { Decides (worked_operator worked_row full_added) first_modem
        (codes "0F00021810010200020601060F01020A0400000001") MinislotsOver (codes "10000203") }
{}

/// States which check of the sets decides: of an active set that asks for more than the admitted
/// one, and of an admitted set that asks for more than the flow was provisioned with.
pub fn worked_sets()
    ensures active { Decides (worked_operator worked_row []) first_modem
        (codes "0F00021810010200010601020F01020A04000000641810010200010601040F01020A0400000065")
        ActiveNotWithin (codes "10000217180C01020001050601010A020117") }
    ensures admitted { Decides (worked_operator provisioned_row []) first_modem
        (codes "12000218120204000001010601060F01020A0400000065")
        AdmittedNotWithin (codes "13000218180E020400000101050601010A020118") }
{}

/// States that a request with a type that is left out is refused before its request is judged.
pub fn worked_messages()
    ensures left_out { HandlesAs (worked_operator worked_row []) first_modem
        (codes "0F00011900") Faulty (hex_reply first_modem (codes "10000102") ∷ []) }
{}
