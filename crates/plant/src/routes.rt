//! To which operator a modem's messages go.

ghost use Rattle.std.specs.Prelude.{◌≡◌, Some, IfOk};
ghost use Rattle.plant.specs.Roster.{holder};

use crate::plant::{Op, Plant};
use dsx_messages::Modem;
use lru::LruCache;
use std::alloc::{AllocError, Global};
use std::marker::Model;
use std::num::NonZeroUsize;

/// How many addresses are remembered.
const REMEMBERED: usize = 16;

/// What knows to which operator of its plant a modem's messages go: a plant with a route cache, or a core. It may remember what it
/// was asked; no answer depends on that.
pub trait Routing: Drop {
    ghost use Rattle.plant.specs.declared.plant.PlantFields.{PlantFields};

    /// The plant.
    ghost plant_of: { Self → PlantFields };

    /// Returns the plant whose operators are found.
    fn plant(&self) -> &Plant
        ensures { result.now ≡ plant_of self.now };

    /// Returns the operator that lists this modem, if one does.
    fn place_of(&mut self, modem: Modem) -> Option<Op>
        ensures value { result ≡ holder (plant_of self.old).rows modem }
        // Nothing changes that contracts see.
        ensures same { self.new ≡ self.old };
}

/// A plant that remembers the operators of the addresses that were asked for last. Contracts see
/// the plant: the cache is not a part of any answer. The type keeps that each cached address is next
/// to its operator.
#[derive(Drop)]
pub struct Routes {
    plant: Plant,
    cache: LruCache<Modem, Op>,
    /// The address that was missed last.
    missed: Option<Modem>,
}

impl Model for Routes {
    ghost use Rattle.plant.specs.declared.plant.PlantFields.{PlantFields};
    ghost use Rattle.plant.specs.Cached.{AreHolders};

    ghost Value = { PlantFields };

    ghost view = { λ r. r.plant };

    ghost invariant = { λ r. AreHolders r.plant.rows r.cache.entries };
}

impl Routes {
    /// Returns the routes of a plant, with nothing remembered.
    pub fn new(alloc: Global, plant: Plant) -> Result<Routes, AllocError>
        ensures { IfOk result (λ routes. routes ≡ plant) }
    {
        let Some(size) = NonZeroUsize::new(REMEMBERED) else {
            unreachable!()
        };
        let cache = LruCache::new(alloc, size)?;
        Ok(Routes {
            plant,
            cache,
            missed: None,
        })
    }

    /// Returns the operator that lists this modem, if one does. The address that was asked for last
    /// is compared first: the cache's order does not change then.
    #[inline(always)]
    pub fn place_of(&mut self, modem: Modem) -> Option<Op>
        // The operator that the plant gives, also if memory ran out and the address is not cached.
        ensures value { result ≡ holder self.old.rows modem }
        ensures plant { self.new ≡ self.old }
    {
        let Some((known, place)) = self.cache.peek_mru() else {
            return self.ask(modem);
        };
        if *known == modem {
            return Some(*place);
        }
        self.search(modem)
    }

    /// Asks the cache, and then the plant.
    #[inline(never)]
    fn search(&mut self, modem: Modem) -> Option<Op>
        ensures value { result ≡ holder self.old.rows modem }
        ensures plant { self.new ≡ self.old }
    {
        if let Some(place) = self.cache.get(&modem).copied() {
            return Some(place);
        }
        self.ask(modem)
    }

    /// Asks the plant. An address is remembered once it is missed twice in a row: if many modems send in
    /// turn, none displaces another.
    #[inline(never)]
    fn ask(&mut self, modem: Modem) -> Option<Op>
        ensures value { result ≡ holder self.old.rows modem }
        ensures plant { self.new ≡ self.old }
    {
        let place = self.plant.operator_of(modem)?;
        if self.missed == Some(modem) {
            self.remember(modem, place);
        } else {
            self.missed = Some(modem);
        }
        Some(place)
    }

    /// Puts the operator of an address into the cache, unless that needs memory and there is none
    /// (implementation-specific).
    fn remember(&mut self, modem: Modem, place: Op)
        requires { holder self.old.rows modem ≡ Some place }
        ensures { self.new ≡ self.old }
    {
        let _ = self.cache.put(modem, place);
    }

    /// Returns the plant that was opened.
    pub fn plant(&self) -> &Plant
        ensures { result.now ≡ self.now }
    {
        &self.plant
    }

    /// Returns the plant alone, and forgets what was remembered.
    pub fn into_plant(self) -> Plant
        ensures { result ≡ self }
    {
        let Routes {
            plant,
            cache: _,
            missed: _,
        } = self;
        plant
    }
}

impl Routing for Routes {
    ghost plant_of = { λ plant. plant };

    fn plant(&self) -> &Plant {
        Routes::plant(self)
    }

    #[inline(always)]
    fn place_of(&mut self, modem: Modem) -> Option<Op> {
        Routes::place_of(self, modem)
    }
}
