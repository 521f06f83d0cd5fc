//! A set of routers in arrays of fixed size. The set is used to count the routers after a batch.

ghost use Rattle.std.specs.Prelude.{◌≡◌, true, ◌<◌, ◌≤◌, [], ◌∷◌, length};
ghost use Rattle.std.specs.Bool.{OnTrue, OnFalse};
ghost use Rattle.std.specs.FinSet as set;
ghost use Rattle.std.specs.Ordering.{nat_cmp};

use cspf_model::{Link, MOST_ROUTERS};
use std::marker::Model;

/// The number of slots in the hash table of the set. A slot has a router's index in `found`,
/// counted from 1, or 0 if the slot is free.
const SLOTS: usize = 4096;

/// The greatest number of slots that are tried for one router.
const TRIES: u32 = 16;

/// A set of at most 1,024 routers. The first `count` numbers of `found` are the addresses of these
/// routers. `places` is a hash table: a slot has a router's index in `found`, counted from 1, or 0
/// if the slot is free. A router's index is in the first of its slots that was free when the router
/// was added.
#[derive(Drop)]
pub struct Routers {
    found: [u32; MOST_ROUTERS],
    count: usize,
    places: [u16; SLOTS],
}

/// The slot that is tried for the router with the address `router` after `others` other slots.
fn slot(router: u32, others: u32) -> usize
    ensures { result < SLOTS }
{
    ((router.wrapping_mul(2654435761) >> 16).wrapping_add(others) % SLOTS as u32) as usize
}

/// Writes `place`, the router's index in `found` counted from 1, into the first free slot among the
/// router's slots. If none of these slots is free, writes nothing.
fn note(places: &mut [u16], router: u32, place: u16)
    requires { length places.old ≡ SLOTS }
    ensures { length places.new ≡ SLOTS }
{
    for others in 0..TRIES {
        let slot = slot(router, others);
        if places[slot] == 0 {
            places[slot] = place;
            return;
        }
    }
}

impl Model for Routers {
    ghost use Rattle.std.specs.FinSet as set;
    ghost use Rattle.std.specs.Ordering.{nat_cmp};
    ghost use Rattle.std.specs.Coded.{coded_ℕ};

    ghost Value = { set.FinSet nat_cmp };

    ghost coded = { set.code coded_ℕ };

    ghost use Rattle.cspf_db.specs.Tables.RouterSets.{routers_in, AreRouters};

    ghost view = { routers_in };

    ghost invariant = { AreRouters };
}

impl Routers {
    ghost use Rattle.cspf_model.specs.Lemmas.CountedEnds.{with_ends};

    /// The empty set.
    pub(super) fn new() -> Self
        ensures { result ≡ set.empty }
    {
        Routers::kept_in([0; MOST_ROUTERS], [0; SLOTS])
    }

    /// The empty set, stored in these two arrays.
    fn kept_in(found: [u32; MOST_ROUTERS], places: [u16; SLOTS]) -> Self
        ensures { result ≡ set.empty }
    {
        Routers {
            found,
            count: 0,
            places,
        }
    }

    /// Adds the router with the address `router`. Returns false if the set would have more than
    /// 1,024 routers.
    pub(super) fn add(&mut self, router: u32) -> bool
        ensures added { OnTrue result (self.new ≡ set.insert self.old router) }
        ensures full { OnFalse result (MOST_ROUTERS < set.len (set.insert self.old router)) }
        ensures few { OnTrue result (set.len self.new ≤ MOST_ROUTERS) }
    {
        if self.has(router) {
            return true;
        }
        if self.found[..self.count].contains(&router) {
            return true;
        }
        if self.count == MOST_ROUTERS {
            return false;
        }
        self.found[self.count] = router;
        self.count += 1;
        note(&mut self.places, router, self.count as u16);
        true
    }

    /// Whether the hash table has the router with the address `router`. If the result is true, the
    /// set has the router. The result may be false for a router of the set if all slots of the
    /// router were taken when it was added.
    fn has(&self, router: u32) -> bool
        ensures { result ≡ true → self.now ≡ set.insert self.now router }
    {
        for others in 0..TRIES {
            let place = self.places[slot(router, others)] as usize;
            if place == 0 {
                return false;
            }
            if place <= self.count && self.found[place - 1] == router {
                return true;
            }
        }
        false
    }

    /// Whether the hash table has both routers of the link. If the result is true, the set has both
    /// routers.
    pub(super) fn has_ends(&self, link: &Link) -> bool
        ensures { result ≡ true → self.now ≡ with_ends self.now (link.now ∷ []) }
    {
        self.has(link.from.number()) && self.has(link.to.number())
    }

    /// Adds both routers of a link. Returns false if the set would have more than 1,024 routers.
    pub(super) fn add_ends(&mut self, link: &Link) -> bool
        ensures added { OnTrue result (self.new ≡ with_ends self.old (link.now ∷ [])) }
        ensures full { OnFalse result (MOST_ROUTERS < set.len (with_ends self.old (link.now ∷ []))) }
        ensures few { OnTrue result (set.len self.new ≤ MOST_ROUTERS) }
    {
        self.add(link.from.number()) && self.add(link.to.number())
    }
}
