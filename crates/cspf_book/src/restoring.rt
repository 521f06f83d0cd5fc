//! Restores placements: adds them to a book with their routes, without a search.

ghost use Rattle.std.specs.Prelude.{◌≡◌, ◌^◌, ◌<◌, ◌≤◌, ◌++◌, ℕ, [], ◌∷◌, List, IfErr, OnOk, OnErr};
ghost use Rattle.cspf_book.specs.declared.limits.TheConstants.{MOST_ROUTES_LINKS};
ghost use Rattle.cspf_book.specs.declared.placement.Placement.{Placement as Placed};
ghost use Rattle.cspf_book.specs.BookState.{links_placed};
ghost use Rattle.cspf_book.specs.Leading.{moved_batch};
ghost use Rattle.cspf_book.specs.Restoring.{MayBeAdded, IsRestoreError};
ghost use Rattle.cspf_book.specs.Giving.{IsRestoringNotGiven};
ghost use Rattle.cspf_book.specs.Kept.{IsCountOf, AreSmall, HasKeys, HasSameSums, HasMoreAlong};
ghost use Rattle.cspf_book.specs.ById.{AreIdsOf, HasSameIds, HasEntered};

use crate::counts::Counts;
use crate::error::{RestoreError, VersionError};
use crate::leading::moved_batch;
use crate::limits::{MOST_PLACED_LINKS, MOST_PLACEMENTS, MOST_ROUTES_LINKS};
use crate::moves::Held;
use crate::offer::has_own_keys;
use crate::placement::Placement;
use crate::taker::Taker;
use cspf_db::Table;
use std::alloc::Global;

/// Counts a placement that is restored, and gives the taker the batch of its route. If memory is
/// refused or the taker refuses the batch, the placement isn't counted.
fn give_restoring<C, S: Taker<C>>(
    taker: &mut S,
    context: &C,
    alloc: Global,
    base: &Table,
    counts: &mut Counts,
    number: u32,
    placement: &Placement,
) -> Result<(), VersionError<RestoreError, S::Refusal>>
    requires keys { HasKeys counts.old placement.now.route }
    requires small { AreSmall counts.old }
    ensures taken { OnOk result ((placements : List Placed) → IsCountOf counts.old placements
        → S.takes taker.old (moved_batch base.now (placements ++ placement.now ∷ []) number []
        placement.now.route) taker.new) }
    ensures why { IfErr result (λ why. (placements : List Placed) → IsCountOf counts.old placements
        → IsRestoringNotGiven S.refuses taker.old (moved_batch base.now
        (placements ++ placement.now ∷ []) number [] placement.now.route) why taker.new) }
    ensures more { OnOk result (HasMoreAlong counts.old counts.new placement.now.route
        placement.now.hold placement.now.request.bandwidth) }
    ensures same { OnErr result (HasSameSums counts.old counts.new) }
    ensures narrow { placement.now.request.bandwidth < 2 ^ 64 }
{
    counts.add(placement);
    let batch = match moved_batch(alloc, base, counts, number, &[], placement.route.links()) {
        Ok(batch) => batch,
        Err(_refused) => {
            counts.take(placement);
            return Err(VersionError::Book(RestoreError::Memory));
        }
    };
    match taker.take(context, alloc, &batch) {
        Ok(()) => Ok(()),
        Err(why) => {
            counts.take(placement);
            Err(VersionError::Taker(why))
        }
    }
}

impl Held {
    /// Tests whether a placement may be added to these placements, which are those of the book. The
    /// error is the first reason against it.
    pub(crate) fn test_adding(
        &self,
        placements: &[Placement],
        placement: &Placement,
    ) -> Result<(), RestoreError>
        requires ids { (version : ℕ) × AreIdsOf self.now.ids version placements.now }
        requires links { self.now.links ≡ links_placed placements.now }
        requires few { self.now.links ≤ MOST_ROUTES_LINKS }
        ensures ok { OnOk result (MayBeAdded placements.now placement.now) }
        ensures why { IfErr result (IsRestoreError placements.now placement.now) }
    {
        let links = placement.route.links();
        if self.ids.index_of(placement.request.id) < placements.len() {
            return Err(RestoreError::SameId);
        }
        if placements.len() >= MOST_PLACEMENTS {
            return Err(RestoreError::Full);
        }
        if links.len() > MOST_PLACED_LINKS {
            return Err(RestoreError::TooLong);
        }
        if !has_own_keys(links) {
            return Err(RestoreError::Twice);
        }
        if links.len() > MOST_ROUTES_LINKS - self.links {
            return Err(RestoreError::TooManyLinks);
        }
        Ok(())
    }

    /// Counts a placement that is restored in this version of the book, and enters its id. Gives
    /// the taker the batch of the placement's route. If memory is refused or the taker refuses the
    /// batch, no sum and no id has changed.
    pub(crate) fn restore<C, S: Taker<C>>(
        &mut self,
        taker: &mut S,
        context: &C,
        alloc: Global,
        base: &Table,
        placement: &Placement,
        version: u32,
    ) -> Result<(), VersionError<RestoreError, S::Refusal>>
        requires small { AreSmall self.old.counts }
        ensures taken { OnOk result ((placements : List Placed) → IsCountOf self.old.counts placements
            → S.takes taker.old (moved_batch base.now (placements ++ placement.now ∷ []) version []
            placement.now.route) taker.new) }
        ensures why { IfErr result (λ why. (placements : List Placed)
            → IsCountOf self.old.counts placements
            → IsRestoringNotGiven S.refuses taker.old (moved_batch base.now
            (placements ++ placement.now ∷ []) version [] placement.now.route) why taker.new) }
        ensures effective { self.new.effective ≡ self.old.effective }
        ensures links { self.new.links ≡ self.old.links }
        ensures one { self.new.one ≡ self.old.one }
        ensures more { OnOk result (HasMoreAlong self.old.counts self.new.counts
            placement.now.route placement.now.hold placement.now.request.bandwidth) }
        ensures narrow { OnOk result (placement.now.request.bandwidth < 2 ^ 64) }
        ensures same { OnErr result (HasSameSums self.old.counts self.new.counts) }
        ensures versions { self.new.ids.versions ≡ self.old.ids.versions }
        ensures bits { self.new.ids.bits ≡ self.old.ids.bits }
        ensures entered { OnOk result (HasEntered self.old.ids self.new.ids
            placement.now.request.id version) }
        ensures err { OnErr result (HasSameIds self.old.ids self.new.ids) }
    {
        let id = placement.request.id;
        let before = self.ids.version_of(id);
        let links = placement.route.links();
        self.counts.enter(links)?;
        self.ids.enter(id, version)?;
        match give_restoring(
            taker,
            context,
            alloc,
            base,
            &mut self.counts,
            version,
            placement,
        ) {
            Ok(()) => Ok(()),
            Err(why) => {
                self.ids.restore(id, before);
                Err(why)
            }
        }
    }
}
