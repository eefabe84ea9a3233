//! The modems of one operator, found by their addresses.

ghost use Rattle.std.specs.Prelude.{◌≡◌, List, IfOk};
ghost use Rattle.dsx_messages.specs.declared.modem.Modem.{Modem};
ghost use Rattle.plant.specs.Roster.{Lists};
ghost use Rattle.plant.specs.Row.{is_listed};

use dsx_messages::Modem;
use indexmap::IndexMap;
use plant::Modems;
use std::alloc::{AllocError, Global};
use std::marker::Model;

/// The modems of an operator, each found by its address without a search of their list. Contracts see
/// the list. The type keeps that the map has the modems of the list and no others.
#[derive(Drop)]
pub(crate) struct OwnModems<'a> {
    modems: &'a Modems,
    places: IndexMap<Modem, usize>,
}

impl<'a> Model for OwnModems<'a> {
    ghost Value = { List Modem };

    ghost view = { λ own. own.modems.now };

    ghost invariant = { λ own. Lists own.places own.modems.now };
}

impl<'a> OwnModems<'a> {
    /// Returns these modems with a map of them.
    pub(crate) fn new(alloc: Global, modems: &'a Modems) -> Result<OwnModems<'a>, AllocError>
        ensures { IfOk result (λ own. own ≡ modems.now) }
    {
        let places = places_in_list(alloc, modems.as_slice())?;
        Ok(OwnModems { modems, places })
    }

    /// Returns whether a modem is one of the operator's, by one look-up in the map.
    pub(crate) fn contains(&self, modem: Modem) -> bool
        ensures { result ≡ is_listed modem self.now }
    {
        self.places.contains_key(&modem)
    }
}

/// Maps each of these modems to its place in the list: to the last one if it is listed twice.
fn places_in_list(alloc: Global, modems: &[Modem]) -> Result<IndexMap<Modem, usize>, AllocError>
    ensures { IfOk result (λ places. Lists places modems.now) }
{
    let mut places = IndexMap::with_capacity(alloc, modems.len())?;
    for (place, modem) in modems.iter().enumerate() {
        places.insert(*modem, place)?;
    }
    Ok(places)
}
