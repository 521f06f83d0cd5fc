//! How much bandwidth the placements count on each link. The sums are stored by the links' keys.

ghost use Rattle.std.specs.Prelude.{◌≡◌, ◌+◌, ◌^◌, ◌<◌, ◌≤◌, ℕ, cond, [], is_some, nat_le, slice_index, IsSome, OnOk};
ghost use Rattle.std.specs.BTreeMap.{get};
ghost use Rattle.cspf_model.specs.Database.{key_cmp};
ghost use Rattle.cspf_book.specs.Kept.{sums_at, sum_at, IsCountOf, AreSmall, IsWithinSums, HasKeys, KeepsKeys, HasSameSums, HasSumsAt, HasMoreAt, HasMoreAlong};

use crate::counting::has_key;
use crate::path::Passed;
use crate::placement::Placement;
use cspf_addr::Addr;
use std::alloc::{AllocError, Global};
use std::collections::BTreeMap;

/// The sums of counted bandwidth by the keys of links, one sum for each priority. A key without an
/// entry has the sums 0.
#[derive(Drop)]
pub(crate) struct Counts {
    sums: BTreeMap<(u32, u32), [u128; 8]>,
}

/// The sums of a link, after a bandwidth is added at each priority from `hold` to 7.
fn raised(mut sums: [u128; 8], hold: u8, bandwidth: u64) -> [u128; 8]
    requires { (p : ℕ) → p < 8 → slice_index sums p < 2 ^ 127 }
    ensures { (p : ℕ) → p < 8
        → slice_index result p ≡ slice_index sums p + cond (nat_le hold p) bandwidth 0 }
{
    for priority in hold..8 {
        sums[usize::from(priority)] += u128::from(bandwidth);
    }
    sums
}

/// The sums of a link, after a bandwidth is subtracted at each priority from `hold` to 7.
fn lowered(mut sums: [u128; 8], hold: u8, bandwidth: u64) -> [u128; 8]
    requires { (p : ℕ) → p < 8 → cond (nat_le hold p) bandwidth 0 ≤ slice_index sums p }
    ensures { (p : ℕ) → p < 8
        → slice_index sums p ≡ slice_index result p + cond (nat_le hold p) bandwidth 0 }
{
    for priority in hold..8 {
        sums[usize::from(priority)] -= u128::from(bandwidth);
    }
    sums
}

impl Counts {
    /// Returns counts without entries: no bandwidth is counted on any link. No memory is allocated.
    pub(crate) fn new(alloc: Global) -> Counts
        ensures { IsCountOf result [] }
    {
        Counts {
            sums: BTreeMap::new(alloc),
        }
    }

    /// The bandwidth that is counted on the link with this key, for each priority from 0 to 7.
    pub(crate) fn sums(&self, from: Addr, local: Addr) -> [u128; 8]
        ensures { result ≡ sums_at self.now (from, local) }
    {
        match self.sums.get(&(from.number(), local.number())) {
            Some(sums) => *sums,
            None => [0; 8],
        }
    }

    /// The bandwidth that is counted on the link with this key at one priority.
    pub(crate) fn sum(&self, from: Addr, local: Addr, priority: u8) -> u128
        requires { priority < 8 }
        ensures { result ≡ sum_at self.now (from, local) priority }
    {
        let sums = self.sums(from, local);
        sums[usize::from(priority)]
    }

    /// Whether there is an entry of sums at this key.
    fn has(&self, from: Addr, local: Addr) -> bool
        ensures { result ≡ is_some (get key_cmp self.now.sums (from, local)) }
    {
        self.sums.contains_key(&(from.number(), local.number()))
    }

    /// Replaces the sums at this key, which has to have an entry already. No memory is allocated.
    fn put(&mut self, from: Addr, local: Addr, sums: [u128; 8])
        requires { IsSome (get key_cmp self.old.sums (from, local)) }
        ensures { HasSumsAt self.old self.new (from, local) sums }
    {
        let _ = self.sums.insert((from.number(), local.number()), sums);
    }

    /// Makes an entry of sums for each of these links whose key has no entry yet. In a new entry,
    /// all sums are 0. After an error, some of the new entries may have been made.
    pub(crate) fn enter(&mut self, links: &[Passed]) -> Result<(), AllocError>
        ensures sums { HasSameSums self.old self.new }
        ensures kept { KeepsKeys self.old self.new }
        ensures keys { OnOk result (HasKeys self.new links.now) }
    {
        for link in links {
            self.enter_one(link.from, link.local)?;
        }
        Ok(())
    }

    /// Makes an entry of sums for this key if the key has no entry yet. In a new entry, all sums
    /// are 0.
    fn enter_one(&mut self, from: Addr, local: Addr) -> Result<(), AllocError>
        ensures sums { HasSameSums self.old self.new }
        ensures kept { KeepsKeys self.old self.new }
        ensures there { OnOk result (IsSome (get key_cmp self.new.sums (from, local))) }
    {
        if !self.has(from, local) {
            self.sums.insert((from.number(), local.number()), [0; 8])?;
        }
        Ok(())
    }

    /// For each of these links, removes the entry of its key if no bandwidth is counted there at
    /// any priority.
    pub(crate) fn forget(&mut self, links: &[Passed])
        ensures { HasSameSums self.old self.new }
    {
        for link in links {
            self.forget_one(link.from, link.local);
        }
    }

    /// Removes the entry at this key if all its sums are 0.
    fn forget_one(&mut self, from: Addr, local: Addr)
        ensures { HasSameSums self.old self.new }
    {
        let sums = self.sums(from, local);
        if sums == [0; 8] {
            let _ = self.sums.remove(&(from.number(), local.number()));
        }
    }

    /// Adds `bandwidth` to the sums at this key, at each priority from `hold` to 7. No memory is
    /// allocated.
    fn raise(&mut self, from: Addr, local: Addr, hold: u8, bandwidth: u64)
        requires there { IsSome (get key_cmp self.old.sums (from, local)) }
        requires small { (p : ℕ) → p < 8 → sum_at self.old (from, local) p < 2 ^ 127 }
        ensures sums { HasMoreAt self.old self.new (from, local) hold bandwidth }
        ensures kept { KeepsKeys self.old self.new }
    {
        let sums = self.sums(from, local);
        self.put(from, local, raised(sums, hold, bandwidth));
    }

    /// Subtracts `bandwidth` from the sums at this key, at each priority from `hold` to 7.
    fn lower(&mut self, from: Addr, local: Addr, hold: u8, bandwidth: u64)
        requires { (p : ℕ) → p < 8
            → cond (nat_le hold p) bandwidth 0 ≤ sum_at self.old (from, local) p }
        ensures sums { HasMoreAt self.new self.old (from, local) hold bandwidth }
        ensures kept { KeepsKeys self.old self.new }
    {
        if self.has(from, local) {
            let sums = self.sums(from, local);
            self.put(from, local, lowered(sums, hold, bandwidth));
        }
    }

    /// Counts a placement: adds its bandwidth once on each link of its route. No memory is
    /// allocated.
    pub(crate) fn add(&mut self, placement: &Placement)
        requires keys { HasKeys self.old placement.now.route }
        requires small { AreSmall self.old }
        ensures sums { HasMoreAlong self.old self.new placement.now.route placement.now.hold
            placement.now.request.bandwidth }
        ensures kept { KeepsKeys self.old self.new }
        ensures narrow { placement.now.request.bandwidth < 2 ^ 64 }
    {
        let bandwidth = placement.request.bandwidth;
        let links = placement.route.links();
        for (i, link) in links.iter().enumerate() {
            if !has_key(&links[..i], link.from, link.local) {
                self.raise(link.from, link.local, placement.hold, bandwidth);
            }
        }
    }

    /// Undoes `add`: subtracts the placement's bandwidth once on each link of its route. No memory
    /// is allocated.
    pub(crate) fn take(&mut self, placement: &Placement)
        requires { IsWithinSums self.old placement.now }
        ensures sums { HasMoreAlong self.new self.old placement.now.route placement.now.hold
            placement.now.request.bandwidth }
        ensures kept { KeepsKeys self.old self.new }
    {
        let bandwidth = placement.request.bandwidth;
        let links = placement.route.links();
        for (i, link) in links.iter().enumerate() {
            if !has_key(&links[..i], link.from, link.local) {
                self.lower(link.from, link.local, placement.hold, bandwidth);
            }
        }
    }
}
