//! The Quality of Service Parameter Set Type.

ghost use Rattle.std.specs.Prelude.{◌≡◌, IfSome, Some};
ghost use Rattle.tlv24.specs.SetType.{set_type_number, set_type_of};
ghost use Rattle.tlv24.specs.declared.set_type.SetType.{SetType};

/// The Quality of Service Parameter Set Types that have a meaning here (CM-SP-MULPIv3.1, Annex C,
/// type 24, subtype 6). Bit 0 is for the provisioned set, bit 1 for the admitted set, bit 2 for the
/// active set.
#[derive(Clone, Copy, Debug, PartialEq, Eq)]
pub enum SetType {
    /// 0 (binary 000): makes the admitted set and the active set null.
    Null,
    /// 1 (binary 001): the provisioned set.
    Provisioned,
    /// 2 (binary 010): the admitted set.
    Admitted,
    /// 3 (binary 011): the provisioned set and the admitted set.
    ProvisionedAndAdmitted,
    /// 4 (binary 100): the active set. Another encoding has the admitted set.
    Active,
    /// 6 (binary 110): the admitted set and the active set.
    AdmittedAndActive,
    /// 7 (binary 111): the provisioned set, the admitted set and the active set.
    AllSets,
}

impl SetType {
    /// Returns the value of subtype 6 on the wire.
    pub fn number(self) -> u8
        ensures { result ≡ set_type_number self }
    {
        match self {
            SetType::Null => 0,
            SetType::Provisioned => 1,
            SetType::Admitted => 2,
            SetType::ProvisionedAndAdmitted => 3,
            SetType::Active => 4,
            SetType::AdmittedAndActive => 6,
            SetType::AllSets => 7,
        }
    }

    /// Returns the set type of a value of subtype 6; none for a value that has no meaning here.
    pub fn from_number(number: u8) -> Option<SetType>
        ensures value { result ≡ set_type_of number }
        ensures found { IfSome result (λ set_type. set_type_number set_type ≡ number) }
        // None comes only if no set type has this value.
        ensures every { (set_type : SetType) → set_type_number set_type ≡ number → result ≡ Some set_type }
    {
        match number {
            0 => Some(SetType::Null),
            1 => Some(SetType::Provisioned),
            2 => Some(SetType::Admitted),
            3 => Some(SetType::ProvisionedAndAdmitted),
            4 => Some(SetType::Active),
            6 => Some(SetType::AdmittedAndActive),
            7 => Some(SetType::AllSets),
            _ => None,
        }
    }
}
