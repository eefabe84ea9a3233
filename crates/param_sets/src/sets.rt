//! The sets of a flow.

ghost use Rattle.std.specs.Prelude.{◌≡◌, ◌↔◌, ℕ, Some, None, Err, IsOk};
ghost use Rattle.dsx_messages.specs.declared.code.Code.TheVariants.{RejectAuthorizationFailure, RejectInvalidForContext};
ghost use Rattle.param_sets.specs.Within.{IsWithinOrNull};
ghost use Rattle.param_sets.specs.Sets.{AreNested, IsWithinProvisioned, admit_of, activate_of, failing_in_provisioned, failing_in_admitted};
ghost use Rattle.param_sets.specs.declared.sets.SetsFields.{SetsFields};

use crate::comparing::within;
use crate::param_set::ParamSet;
use crate::refusal::Refusal;
use dsx_messages::Code;
use std::marker::Model;
use tlv24::subtype;

/// The parameter sets of a service flow (CM-SP-MULPIv3.1, Annex C, subtype 6): None is the null set.
#[derive(Clone, Copy, Debug, PartialEq, Eq)]
pub struct SetsFields {
    /// What the flow was provisioned with: None for a dynamic flow.
    pub provisioned: Option<ParamSet>,
    /// What resources are committed for.
    pub admitted: Option<ParamSet>,
    /// What the flow is served by.
    pub active: Option<ParamSet>,
}

impl SetsFields {
    /// No set.
    pub const NONE: SetsFields = SetsFields {
        provisioned: None,
        admitted: None,
        active: None,
    };
}

/// The parameter sets of a service flow, the active one within the admitted one, and that one within the provisioned one
/// where there is one. Contracts see the three.
#[derive(Clone, Copy, Debug, PartialEq, Eq)]
pub struct Sets {
    fields: SetsFields,
}

impl Model for Sets {
    ghost Value = { SetsFields };

    ghost view = { λ s. s.fields };

    ghost invariant = { λ s. AreNested s.fields };

    ghost inverse = { λ m. record { fields = m } };
}

impl Sets {
    /// Returns the sets of a dynamic flow: none.
    pub fn dynamic() -> Sets
        ensures { result ≡ record { provisioned = None; admitted = None; active = None } }
    {
        Sets {
            fields: SetsFields::NONE,
        }
    }

    /// Returns the sets of a flow that was provisioned with `set` and has no other.
    pub fn provisioned(set: ParamSet) -> Sets
        ensures { result ≡ record { provisioned = Some set; admitted = None; active = None } }
    {
        Sets {
            fields: SetsFields {
                provisioned: Some(set),
                ..SetsFields::NONE
            },
        }
    }

    /// Returns these sets with `set` admitted and none active.
    ///
    /// Refused with code 24, naming the first subtype in which `set` is not within the provisioned
    /// set, where there is one.
    pub fn admit(&self, set: ParamSet) -> Result<Sets, Refusal>
        ensures exact { result ≡ admit_of self.now set }
        ensures ok { IsOk result ↔ IsWithinProvisioned (Some set) self.now.provisioned }
        // Refused exactly if the set is not within the provisioned one, with the first subtype in which it is not.
        ensures refused { (subtype : ℕ)
            → (result ≡ Err (record { code = RejectAuthorizationFailure; subtype = subtype }))
            ↔ (failing_in_provisioned set self.now.provisioned ≡ Some subtype) }
    {
        if let Some(provisioned) = self.fields.provisioned {
            if let Err(subtype) = within(&set, &provisioned) {
                return Err(Refusal {
                    code: Code::RejectAuthorizationFailure,
                    subtype,
                });
            }
        }
        Ok(Sets {
            fields: SetsFields {
                provisioned: self.fields.provisioned,
                admitted: Some(set),
                ..SetsFields::NONE
            },
        })
    }

    /// Returns these sets with `set` active.
    ///
    /// Refused with code 23, naming 15 where no set is admitted, else the first subtype in which
    /// `set` is not within the admitted one.
    pub fn activate(&self, set: ParamSet) -> Result<Sets, Refusal>
        ensures exact { result ≡ activate_of self.now set }
        ensures ok { IsOk result ↔ IsWithinOrNull (Some set) self.now.admitted }
        // Refused exactly if the set is not within the admitted one: 15 if none is admitted, else the first subtype
        // that fails.
        ensures refused { (subtype : ℕ) → (result ≡ Err (record { code = RejectInvalidForContext; subtype = subtype }))
            ↔ (failing_in_admitted set self.now.admitted ≡ Some subtype) }
    {
        let tested = match self.fields.admitted {
            None => Err(subtype::SCHEDULING_TYPE),
            Some(admitted) => within(&set, &admitted),
        };
        match tested {
            Ok(()) => Ok(Sets {
                fields: SetsFields {
                    active: Some(set),
                    ..self.fields
                },
            }),
            Err(subtype) => Err(Refusal {
                code: Code::RejectInvalidForContext,
                subtype,
            }),
        }
    }

    /// Returns these sets with none admitted and none active.
    pub fn clear(&self) -> Sets
        ensures { result ≡ record { provisioned = self.now.provisioned; admitted = None; active = None } }
    {
        Sets {
            fields: SetsFields {
                provisioned: self.fields.provisioned,
                ..SetsFields::NONE
            },
        }
    }

    /// Returns the provisioned, the admitted and the active set.
    pub fn get_fields(&self) -> SetsFields
        ensures value { result ≡ self.now }
        ensures nested { AreNested result }
    {
        self.fields
    }

    /// Returns what the flow was provisioned with.
    pub fn get_provisioned(&self) -> Option<ParamSet>
        ensures value { result ≡ self.now.provisioned }
    {
        self.fields.provisioned
    }

    /// Returns what resources are committed for.
    pub fn get_admitted(&self) -> Option<ParamSet>
        ensures value { result ≡ self.now.admitted }
        ensures within { IsWithinProvisioned result self.now.provisioned }
    {
        self.fields.admitted
    }

    /// Returns what the flow is served by.
    pub fn get_active(&self) -> Option<ParamSet>
        ensures value { result ≡ self.now.active }
        ensures within { IsWithinOrNull result self.now.admitted }
    {
        self.fields.active
    }
}
