//! Finds the index of the placement with an id, by the version of the book in which it was placed.
//! Also stores the bits of the routers on each placement's route.

ghost use Rattle.std.specs.Prelude.{◌≡◌, ◌<◌, ◌++◌, ℕ, [], ◌∷◌, List, length, vec_len, remove, IsSome, OnOk, OnErr};
ghost use Rattle.std.specs.Vec.{vec_capacity};
ghost use Rattle.std.specs.List.Sorted.{IsNonDecreasing};
ghost use Rattle.cspf_book.specs.declared.placement.Placement.{Placement as Placed};
ghost use Rattle.cspf_book.specs.Placements.{index_of_id};
ghost use Rattle.cspf_book.specs.ById.{entered, AreIdsOf, IsIndexIn, HasRoomForOne, HasSameIds, HasEntered, HasRestored, HasReplaced, HasForgotten};

use std::alloc::{AllocError, Global};
use std::collections::BTreeMap;

/// The versions in which the placements of a book were placed.
#[derive(Drop)]
pub(crate) struct Ids {
    /// The versions, in the order of the placements. They are strictly increasing.
    versions: Vec<u32>,
    /// The bits of the routers on each placement's route, in the same order.
    bits: Vec<u128>,
    /// The version of each placement, by the placement's id.
    by_id: BTreeMap<u64, u32>,
}

impl Ids {
    /// Returns the versions of a book without placements. No memory is allocated.
    pub(crate) fn new(alloc: Global) -> Ids
        ensures { AreIdsOf result 0 [] }
    {
        Ids {
            versions: Vec::new(alloc),
            bits: Vec::new(alloc),
            by_id: BTreeMap::new(alloc),
        }
    }

    /// The index of the placement with this id. If no placement has the id, the result is the
    /// number of placements.
    pub(crate) fn index_of(&self, id: u64) -> usize
        ensures { (version : ℕ) (placements : List Placed) → AreIdsOf self.now version placements
            → result ≡ index_of_id id placements }
    {
        match self.by_id.get(&id) {
            Some(version) => index_in(&self.versions, *version),
            None => self.versions.len(),
        }
    }

    /// The bits of the routers on each placement's route, in the order of the placements.
    pub(crate) fn bits(&self) -> &[u128]
        ensures { result.now ≡ self.now.bits.items }
    {
        self.bits.as_slice()
    }

    /// Reserves memory for the version and the bits of one more placement.
    pub(crate) fn reserve(&mut self) -> Result<(), AllocError>
        ensures same { HasSameIds self.old self.new }
        ensures room { OnOk result (HasRoomForOne self.new) }
    {
        self.versions.reserve(1)?;
        self.bits.reserve(1)
    }

    /// Enters `version` into the map by ids, as the version in which the placement with this id is
    /// placed. After an error, nothing has changed.
    pub(crate) fn enter(&mut self, id: u64, version: u32) -> Result<(), AllocError>
        ensures versions { self.new.versions ≡ self.old.versions }
        ensures bits { self.new.bits ≡ self.old.bits }
        ensures ok { OnOk result (HasEntered self.old self.new id version) }
        ensures err { OnErr result (HasSameIds self.old self.new) }
    {
        self.by_id.insert(id, version)?;
        Ok(())
    }

    /// The version in the map by ids for this id, if there is one.
    pub(crate) fn version_of(&self, id: u64) -> Option<u32>
        ensures { result ≡ entered self.now id }
    {
        self.by_id.get(&id).copied()
    }

    /// Undoes `enter`: the map by ids has the version `before` for this id again, or no version.
    /// The map has to have a version for the id. No memory is allocated.
    pub(crate) fn restore(&mut self, id: u64, before: Option<u32>)
        requires { IsSome (entered self.old id) }
        ensures { HasRestored self.old self.new id before }
    {
        match before {
            Some(version) => {
                let _ = self.by_id.insert(id, version);
            }
            None => {
                let _ = self.by_id.remove(&id);
            }
        }
    }

    /// Removes the version and the bits at index `at` from their lists, if the lists have this
    /// index. Then appends this version and these bits. No memory is allocated.
    pub(crate) fn replace(&mut self, at: usize, version: u32, bits: u128)
        requires { HasRoomForOne self.old }
        ensures { HasReplaced self.old self.new at version bits }
    {
        replace(&mut self.versions, at, version);
        replace(&mut self.bits, at, bits);
    }

    /// Removes the version of this id from the map by ids. Also removes the version and the bits at
    /// index `at` from their lists.
    pub(crate) fn forget(&mut self, id: u64, at: usize)
        requires versions { at < length self.old.versions.items }
        requires bits { at < length self.old.bits.items }
        ensures { HasForgotten self.old self.new id at }
    {
        self.versions.remove(at);
        self.bits.remove(at);
        let _ = self.by_id.remove(&id);
    }
}

/// Removes the item at index `at`, if the list has this index, and appends this item. No memory is
/// allocated.
fn replace<T: Copy>(list: &mut Vec<T>, at: usize, item: T)
    requires { vec_len list.old < vec_capacity list.old }
    ensures { list.new.items ≡ remove list.old.items at ++ item ∷ [] }
{
    if at < list.len() {
        list.remove(at);
    }
    list.push_reserved(item);
}

/// How many of the versions are lower than `version`. The versions have to be in increasing order.
fn index_in(versions: &[u32], version: u32) -> usize
    ensures { IsNonDecreasing versions.now → IsIndexIn versions.now version result }
{
    versions.partition_point(|other| *other < version)
}
