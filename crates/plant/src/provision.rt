//! Provisioned flows.

ghost use Rattle.std.specs.Prelude.{◌≡◌, IfOk, IfSome};
ghost use Rattle.plant.specs.Provisioned.{sets_of_type, sets_of_asked, sets_of_encoding};
ghost use Rattle.plant.specs.declared.provision.Provision.{Provision};

use crate::consts::Consts;
use dsx_messages::Modem;
use lists::Listed;
use param_sets::{ParamSet, Sets, Units, from_tlv};
use std::alloc::{AllocError, Global};
use tlv24::{Bytes, FlowTlv, SetType, read_flow};

/// A flow that an operator is provisioned with.
#[derive(Debug, Drop)]
pub struct Provision {
    /// Whose flow it is.
    pub modem: Modem,
    /// What it is provisioned with: the value of a type 24 TLV (CM-SP-MULPIv3.1, Annex C).
    pub encoding: Bytes,
}

impl Provision {
    /// Returns the sets that the flow is opened with: set type 1 provisions a parameter set, 3 also
    /// admits it, 7 also activates it. None where the encoding cannot be read, names no class of
    /// the plant, asks for no parameter set, or has another set type. Takes no memory.
    pub fn sets(&self, consts: &Consts) -> Option<Sets>
        ensures { result ≡ sets_of_encoding consts.now self.now.encoding }
    {
        let stated = read_flow(self.encoding.as_slice()).ok()?;
        let asked = consts.requested_encoding(&stated)?;
        sets_of_asked(consts.get_fields().units, stated.get_set_type(), &asked)
    }

    /// Returns the sets that the flow is opened with, as `sets` does. Takes over those of the flow
    /// before it if both have the same encoding, as most flows of a plant file have. Takes no memory.
    pub fn sets_after(
        &self,
        consts: &Consts,
        before: Option<&Provision>,
        sets_before: Option<Sets>,
    ) -> Option<Sets>
        requires { IfSome before (λ p. sets_before ≡ sets_of_encoding consts.now p.now.encoding) }
        ensures { result ≡ sets_of_encoding consts.now self.now.encoding }
    {
        match before {
            Some(before) if self.encoding.as_slice() == before.encoding.as_slice() => sets_before,
            _ => self.sets(consts),
        }
    }

    /// Returns an equal value with memory of its own.
    pub fn copy(&self, alloc: Global) -> Result<Provision, AllocError>
        ensures { IfOk result (λ provision. provision ≡ self.now) }
    {
        Ok(Provision {
            modem: self.modem,
            encoding: self.encoding.copy(alloc)?,
        })
    }
}

/// Returns the sets of a flow that asks for this.
fn sets_of_asked(units: Units, set_type: Option<u8>, asked: &FlowTlv) -> Option<Sets>
    ensures { result ≡ sets_of_asked units set_type asked.now }
{
    let set = from_tlv(asked, &units).ok()?;
    sets_of_type(SetType::from_number(set_type?), set)
}

/// Returns the sets that a set type makes of one parameter set. None for a set type that does not
/// provision a set.
fn sets_of_type(set_type: Option<SetType>, set: ParamSet) -> Option<Sets>
    ensures { result ≡ sets_of_type set_type set }
{
    let provisioned = Sets::provisioned(set);
    match set_type {
        Some(SetType::Provisioned) => Some(provisioned),
        Some(SetType::ProvisionedAndAdmitted) => provisioned.admit(set).ok(),
        Some(SetType::AllSets) => provisioned.admit(set).ok()?.activate(set).ok(),
        _ => None,
    }
}

/// The flows that an operator is provisioned with, in the file's order.
pub type Provisions = Listed<Provision>;

/// Returns an equal list with memory of its own.
pub(crate) fn copy_provisions(
    alloc: Global,
    provisions: &[Provision],
) -> Result<Provisions, AllocError>
    ensures { IfOk result (λ copies. copies ≡ provisions.now) }
{
    let mut copies = Vec::with_capacity(alloc, provisions.len())?;
    for provision in provisions {
        copies.push(provision.copy(alloc)?)?;
    }
    Ok(Listed::from_vec(copies))
}
