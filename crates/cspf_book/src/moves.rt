//! Adds placements to a book and removes placements from a book. Each time, the sums of counted
//! bandwidth and the effective database are updated.

ghost use Rattle.std.specs.Prelude.{◌≡◌, ◌+◌, ◌^◌, ◌<◌, ◌≤◌, [], ◌∷◌, ◌++◌, List, length, vec_len, remove, OnOk};
ghost use Rattle.std.specs.Vec.{vec_capacity};
ghost use Rattle.cspf_book.specs.declared.limits.TheConstants.{MOST_ROUTES_LINKS};
ghost use Rattle.cspf_book.specs.declared.placement.Placement.{Placement as Placed};
ghost use Rattle.cspf_book.specs.Alike.{AreAlike, IsCurrentBut};
ghost use Rattle.cspf_book.specs.ById.{HasSameIds, HasReplaced, HasRoomForOne};
ghost use Rattle.cspf_book.specs.RouterBits.{bits_of};
ghost use Rattle.cspf_book.specs.Effective.{effective};
ghost use Rattle.cspf_book.specs.BookState.{links_placed};
ghost use Rattle.cspf_book.specs.Kept.{IsCountOf, AreSmall, HasKeys, HasKeysAt, KeepsKeys, HasSameSums};

use crate::counts::Counts;
use crate::effective_links::{refresh, within_limits};
use crate::placement::Placement;
use crate::router_bits::bits_of;
use crate::versions::Ids;
use cspf_db::Table;
use cspf_model::Batch;
use std::alloc::AllocError;

/// How many links the route of the placement at index `at` has: 0 if there is no such placement.
pub(crate) fn links_at(placements: &[Placement], at: usize) -> usize
    ensures { links_placed placements.now ≡ links_placed (remove placements.now at) + result }
{
    if at < placements.len() {
        placements[at].route.links().len()
    } else {
        0
    }
}

/// Removes the entries of `counts` for the links of the placement at index `at`, if there is such a
/// placement. An entry stays if bandwidth is still counted on its link.
pub(crate) fn forget_at(counts: &mut Counts, placements: &[Placement], at: usize)
    ensures { HasSameSums counts.old counts.new }
{
    if at < placements.len() {
        counts.forget(placements[at].route.links());
    }
}

/// Makes entries of `counts` for the links of the placement at index `at`, if there is such a
/// placement. In a book these entries exist already. After an error, some of them may be missing.
pub(crate) fn enter_at(
    counts: &mut Counts,
    placements: &[Placement],
    at: usize,
) -> Result<(), AllocError>
    ensures sums { HasSameSums counts.old counts.new }
    ensures kept { KeepsKeys counts.old counts.new }
    ensures keys { OnOk result (HasKeysAt counts.new placements.now at) }
{
    if at < placements.len() {
        counts.enter(placements[at].route.links())?;
    }
    Ok(())
}

/// Removes the placement at index `at` from the list of placements, if there is such a placement.
pub(crate) fn take_out(placements: &mut Vec<Placement>, at: usize)
    ensures items { placements.new.items ≡ remove placements.old.items at }
    ensures room { vec_capacity placements.new ≡ vec_capacity placements.old }
{
    if at < placements.len() {
        placements.remove(at);
    }
}

/// What a book computes from its base and its placements.
#[derive(Drop)]
pub(crate) struct Held {
    /// The effective database: the base, with the bandwidth that the placements leave on its links.
    pub(crate) effective: Table,
    /// How much bandwidth is counted on each link.
    pub(crate) counts: Counts,
    /// The versions in which the placements were placed.
    pub(crate) ids: Ids,
    /// How many links the routes of the placements have together.
    pub(crate) links: usize,
    /// A batch that always has one change. It is used to update one link of the effective database.
    pub(crate) one: Batch,
}

impl Held {
    /// Reserves memory for one more placement. Also makes entries of the sums for the links of the
    /// placement at index `at`, if there is such a placement. In a book these entries exist
    /// already. After an error, some of the entries may be missing.
    pub(crate) fn make_room(
        &mut self,
        placements: &mut Vec<Placement>,
        at: usize,
    ) -> Result<(), AllocError>
        ensures items { placements.new.items ≡ placements.old.items }
        ensures ids { HasSameIds self.old.ids self.new.ids }
        ensures sums { HasSameSums self.old.counts self.new.counts }
        ensures effective { self.new.effective ≡ self.old.effective }
        ensures links { self.new.links ≡ self.old.links }
        ensures one { self.new.one ≡ self.old.one }
        ensures room { OnOk result (vec_len placements.new < vec_capacity placements.new) }
        ensures id_room { OnOk result (HasRoomForOne self.new.ids) }
        ensures keys { OnOk result (HasKeysAt self.new.counts placements.old.items at) }
    {
        placements.reserve(1)?;
        self.ids.reserve()?;
        enter_at(&mut self.counts, placements, at)
    }

    /// Subtracts the bandwidth of the placement at index `at`, if there is such a placement, from
    /// the sums of counted bandwidth, and its links from `links`. In the effective database this
    /// bandwidth is free again. The list of placements isn't changed.
    pub(crate) fn set_aside(&mut self, base: &Table, placements: &[Placement], at: usize)
        requires one { length self.old.one.changes ≡ 1 }
        requires links { self.old.links ≡ links_placed placements.now }
        requires counted { IsCountOf self.old.counts placements.now }
        requires current { self.old.effective ≡ effective base.now placements.now }
        ensures one { length self.new.one.changes ≡ 1 }
        ensures ids { self.new.ids ≡ self.old.ids }
        ensures links { self.new.links ≡ links_placed (remove placements.now at) }
        ensures fewer { self.new.links ≤ self.old.links }
        ensures counted { IsCountOf self.new.counts (remove placements.now at) }
        ensures kept { KeepsKeys self.old.counts self.new.counts }
        ensures current { self.new.effective ≡ effective base.now (remove placements.now at) }
    {
        within_limits(base);
        self.links -= links_at(placements, at);
        if at < placements.len() {
            let placement = &placements[at];
            self.counts.take(placement);
            self.refresh(base, placement);
        }
    }

    /// Undoes `set_aside`: counts the bandwidth of the placement at index `at` again, in the sums
    /// and in the effective database, and its links in `links`.
    pub(crate) fn set_back(&mut self, base: &Table, placements: &[Placement], at: usize)
        requires one { length self.old.one.changes ≡ 1 }
        requires few { links_placed placements.now ≤ MOST_ROUTES_LINKS }
        requires links { self.old.links ≡ links_placed (remove placements.now at) }
        requires keys { HasKeysAt self.old.counts placements.now at }
        requires small { AreSmall self.old.counts }
        requires counted { IsCountOf self.old.counts (remove placements.now at) }
        requires current { self.old.effective ≡ effective base.now (remove placements.now at) }
        ensures one { length self.new.one.changes ≡ 1 }
        ensures ids { self.new.ids ≡ self.old.ids }
        ensures links { self.new.links ≡ links_placed placements.now }
        ensures counted { IsCountOf self.new.counts placements.now }
        ensures current { self.new.effective ≡ effective base.now placements.now }
    {
        within_limits(base);
        self.links += links_at(placements, at);
        if at < placements.len() {
            let placement = &placements[at];
            self.counts.add(placement);
            self.refresh(base, placement);
        }
    }

    /// Appends a placement that is placed in this version of the book to the list, and counts its
    /// links. Its bandwidth has to be counted already. If there is a placement at index `at`, it is
    /// removed; it has to be set aside. No memory is allocated.
    pub(crate) fn put_in(
        &mut self,
        base: &Table,
        placements: &mut Vec<Placement>,
        at: usize,
        version: u32,
        placement: Placement,
    )
        requires one { length self.old.one.changes ≡ 1 }
        requires room { vec_len placements.old < vec_capacity placements.old }
        requires id_room { HasRoomForOne self.old.ids }
        requires few { self.old.links + length placement.route ≤ MOST_ROUTES_LINKS }
        requires links { self.old.links ≡ links_placed (remove placements.old.items at) }
        requires counted { IsCountOf self.old.counts (remove placements.old.items at ++ placement ∷ []) }
        requires current { self.old.effective ≡ effective base.now (remove placements.old.items at) }
        ensures one { length self.new.one.changes ≡ 1 }
        ensures items { placements.new.items ≡ remove placements.old.items at ++ placement ∷ [] }
        ensures ids { HasReplaced self.old.ids self.new.ids at version (bits_of placement) }
        ensures links { self.new.links ≡ links_placed placements.new.items }
        ensures counted { IsCountOf self.new.counts placements.new.items }
        ensures current { self.new.effective ≡ effective base.now placements.new.items }
    {
        within_limits(base);
        take_out(placements, at);
        self.ids.replace(at, version, bits_of(&placement));
        self.links += placement.route.links().len();
        self.refresh(base, &placement);
        placements.push_reserved(placement);
    }

    /// For each link of the placement's route, puts the base's link with the same key into the
    /// effective database, with its effective bandwidths.
    fn refresh(&mut self, base: &Table, placement: &Placement)
        requires one { length self.old.one.changes ≡ 1 }
        requires alike { AreAlike base.now self.old.effective }
        ensures one { length self.new.one.changes ≡ 1 }
        ensures ids { self.new.ids ≡ self.old.ids }
        ensures links { self.new.links ≡ self.old.links }
        ensures counts { self.new.counts ≡ self.old.counts }
        ensures current { (placements : List Placed) → IsCountOf self.old.counts placements
            → IsCurrentBut base.now placements self.old.effective placement.now.route
            → self.new.effective ≡ effective base.now placements }
    {
        for link in placement.route.links() {
            let (from, local) = (link.from, link.local);
            refresh(
                &mut self.effective,
                &mut self.one,
                base,
                &self.counts,
                from,
                local,
            );
        }
    }
}
