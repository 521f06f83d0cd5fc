//! Lists of at most seven hops. A list is stored in an array, without an allocation.

ghost use Rattle.std.specs.Prelude.{◌≡◌, ◌<◌, ◌≤◌, ◌++◌, [], ◌∷◌, length, slice_get, ◌==◌};

use crate::hop::Hop;
use crate::prefix::Prefix;
use std::marker::Model;

/// The greatest number of hops in a list.
pub const MOST_HOPS: usize = 7;

/// The hops of an explicit route, in order. There are at most `MOST_HOPS`.
#[derive(Clone, Copy, Debug, PartialEq, Eq)]
pub struct Hops {
    places: [Hop; MOST_HOPS],
    count: usize,
}

impl Model for Hops {
    ghost use Rattle.std.specs.Prelude.{List, take, length};
    ghost use Rattle.cspf_addr.specs.declared.hop.Hop.{Hop};

    ghost Value = { List Hop };

    ghost use Rattle.cspf_addr.specs.KeptHops.{AreKept, in_seven_places, places-kept, length-kept};

    ghost view = { λ h. take h.count h.places };

    ghost invariant = { λ h. AreKept h.places h.count };

    ghost inverse = { λ hops. record { places = in_seven_places hops; count = length hops } };

    ghost inverse_ok = { λ h kept. λ i. record {
      places = places-kept h.places h.count kept i;
      count = length-kept h.places h.count kept i;
    } };
}

impl Hops {
    /// The empty list.
    pub fn none() -> Hops
        ensures { result ≡ [] }
    {
        let free = Hop {
            prefix: Prefix::of_all(),
            loose: false,
        };
        Hops {
            places: [free; MOST_HOPS],
            count: 0,
        }
    }

    /// The number of hops in the list.
    pub fn len(&self) -> usize
        ensures value { result ≡ length self.now }
        ensures most { length self.now ≤ MOST_HOPS }
    {
        self.count
    }

    /// Whether the list is empty.
    pub fn is_empty(&self) -> bool
        ensures { result ≡ (length self.now == 0) }
    {
        self.count == 0
    }

    /// The hop at an index, or `None` if there is no such hop. The first hop has index 0.
    pub fn get(&self, place: usize) -> Option<Hop>
        ensures { result ≡ slice_get self.now place }
    {
        self.as_slice().get(place).copied()
    }

    /// The hops, in order.
    pub fn as_slice(&self) -> &[Hop]
        ensures { result.now ≡ self.now }
    {
        &self.places[..self.count]
    }

    /// Appends a hop to the list, which has fewer than `MOST_HOPS` hops.
    pub fn push(&mut self, hop: Hop)
        requires { length self.old < MOST_HOPS }
        ensures { self.new ≡ self.old ++ hop ∷ [] }
    {
        self.places[self.count] = hop;
        self.count += 1;
    }
}
