//! Gives the versions of a book to a taker.

ghost use Rattle.std.specs.Prelude.{◌≡◌, ◌-◌, ◌^◌, ◌<◌, ◌≤◌, ◌++◌, [], ◌∷◌, List, IfOk, IfErr, IfSome, IfNone, OnOk, OnErr};
ghost use Rattle.cspf_model.specs.Best.{IsBestAnswer};
ghost use Rattle.cspf_model.specs.Outcome.{answer_of};
ghost use Rattle.cspf_book.specs.declared.limits.TheConstants.{MOST_ROUTES_LINKS};
ghost use Rattle.cspf_book.specs.declared.placement.Placement.{Placement as Placed};
ghost use Rattle.cspf_book.specs.Leading.{moved_batch};
ghost use Rattle.cspf_book.specs.Offers.{IsOffered};
ghost use Rattle.cspf_book.specs.Giving.{IsPlacingNotGiven, IsReleaseNotGiven, IsNotProposed};
ghost use Rattle.cspf_book.specs.Kept.{IsCountOf, AreSmall, HasKeys, KeepsKeys, HasSameSums, HasMoreAlong};
ghost use Rattle.cspf_book.specs.ById.{HasSameIds, HasEntered};

use crate::counts::Counts;
use crate::error::{PlaceError, ReleaseError, VersionError};
use crate::leading::moved_batch;
use crate::moves::Held;
use crate::path::Passed;
use crate::placement::Placement;
use crate::taker::Taker;
use cspf_db::Table;
use cspf_model::{Outcome, Request};
use std::alloc::Global;

/// Counts a placement, and gives the taker the batch by which it moves from the route `old` to its
/// own route. If memory is refused or the taker refuses the batch, the placement isn't counted.
fn give_placing<C, S: Taker<C>>(
    taker: &mut S,
    context: &C,
    alloc: Global,
    base: &Table,
    counts: &mut Counts,
    number: u32,
    old: &[Passed],
    placement: &Placement,
    outcome: &Outcome,
) -> Result<(), VersionError<PlaceError, S::Refusal>>
    requires keys { HasKeys counts.old placement.now.route }
    requires small { AreSmall counts.old }
    ensures taken { OnOk result ((placements : List Placed) → IsCountOf counts.old placements
        → S.places taker.old (moved_batch base.now (placements ++ placement.now ∷ []) number
        old.now placement.now.route) (answer_of outcome.now) taker.new) }
    ensures why { IfErr result (λ why. (placements : List Placed) → IsCountOf counts.old placements
        → IsPlacingNotGiven S.refuses taker.old (moved_batch base.now
        (placements ++ placement.now ∷ []) number old.now placement.now.route) why taker.new) }
    ensures more { OnOk result (HasMoreAlong counts.old counts.new placement.now.route
        placement.now.hold placement.now.request.bandwidth) }
    ensures same { OnErr result (HasSameSums counts.old counts.new) }
    ensures kept { KeepsKeys counts.old counts.new }
    ensures narrow { placement.now.request.bandwidth < 2 ^ 64 }
{
    counts.add(placement);
    let batch = match moved_batch(alloc, base, counts, number, old, placement.route.links()) {
        Ok(batch) => batch,
        Err(_refused) => {
            counts.take(placement);
            return Err(VersionError::Book(PlaceError::Memory));
        }
    };
    match taker.take_placing(context, alloc, &batch, outcome) {
        Ok(()) => Ok(()),
        Err(why) => {
            counts.take(placement);
            Err(VersionError::Taker(why))
        }
    }
}

/// Gives the taker the batch by which a placement leaves the route `old`. The placement isn't
/// counted any more.
pub(crate) fn give_release<C, S: Taker<C>>(
    taker: &mut S,
    context: &C,
    alloc: Global,
    base: &Table,
    counts: &Counts,
    number: u32,
    old: &[Passed],
) -> Result<(), VersionError<ReleaseError, S::Refusal>>
    ensures taken { OnOk result ((placements : List Placed) → IsCountOf counts.now placements
        → S.takes taker.old (moved_batch base.now placements number old.now []) taker.new) }
    ensures why { IfErr result (λ why. (placements : List Placed) → IsCountOf counts.now placements
        → IsReleaseNotGiven S.refuses taker.old (moved_batch base.now placements number old.now [])
        why taker.new) }
{
    let batch = match moved_batch(alloc, base, counts, number, old, &[]) {
        Ok(batch) => batch,
        Err(_refused) => return Err(VersionError::Book(ReleaseError::Memory)),
    };
    match taker.take(context, alloc, &batch) {
        Ok(()) => Ok(()),
        Err(why) => Err(VersionError::Taker(why)),
    }
}

impl Held {
    /// The best answer to a request in the effective database. If the answer is a route, its
    /// placement in this version of the book is returned too. The placement is counted, its id is
    /// entered, and the taker has taken its batch. A route that can't be placed is an error
    /// (`offer`), and so is a batch that the taker refuses. For any other answer and after an
    /// error, no sum and no id has changed.
    pub(crate) fn propose<C, S: Taker<C>>(
        &mut self,
        taker: &mut S,
        context: &C,
        alloc: Global,
        base: &Table,
        old: &[Passed],
        request: &Request,
        hold: u8,
        version: u32,
    ) -> Result<(Outcome, Option<Placement>), VersionError<PlaceError, S::Refusal>>
        requires hold { hold < 8 }
        requires few { self.old.links ≤ MOST_ROUTES_LINKS }
        requires small { AreSmall self.old.counts }
        ensures best { IfOk result (λ offered.
            IsBestAnswer self.old.effective request.now (answer_of offered.0)) }
        ensures placement { IfOk result (λ offered. IsOffered request.now hold
            (MOST_ROUTES_LINKS - self.old.links) (answer_of offered.0) offered.1) }
        ensures why { IfErr result (λ why. (placements : List Placed)
            → IsCountOf self.old.counts placements
            → IsNotProposed S.refuses self.old.effective request.now hold
            (MOST_ROUTES_LINKS - self.old.links) base.now placements version old.now taker.old
            why taker.new) }
        ensures taken { IfOk result (λ offered. IfSome offered.1 (λ p. (placements : List Placed)
            → IsCountOf self.old.counts placements
            → S.places taker.old (moved_batch base.now (placements ++ p ∷ []) version old.now
            p.route) (answer_of offered.0) taker.new)) }
        ensures untaken { IfOk result (λ offered. IfNone offered.1 (taker.new ≡ taker.old)) }
        ensures effective { self.new.effective ≡ self.old.effective }
        ensures links { self.new.links ≡ self.old.links }
        ensures one { self.new.one ≡ self.old.one }
        ensures more { IfOk result (λ offered. IfSome offered.1 (λ p. HasMoreAlong self.old.counts
            self.new.counts p.route p.hold p.request.bandwidth)) }
        ensures narrow { IfOk result (λ offered. IfSome offered.1 (λ p.
            p.request.bandwidth < 2 ^ 64)) }
        ensures sums { IfOk result (λ offered. IfNone offered.1
            (HasSameSums self.old.counts self.new.counts)) }
        ensures err_sums { OnErr result (HasSameSums self.old.counts self.new.counts) }
        ensures kept { KeepsKeys self.old.counts self.new.counts }
        ensures versions { self.new.ids.versions ≡ self.old.ids.versions }
        ensures bits { self.new.ids.bits ≡ self.old.ids.bits }
        ensures entered { IfOk result (λ offered. IfSome offered.1 (λ p.
            HasEntered self.old.ids self.new.ids request.now.id version)) }
        ensures none { IfOk result (λ offered. IfNone offered.1
            (HasSameIds self.old.ids self.new.ids)) }
        ensures err { OnErr result (HasSameIds self.old.ids self.new.ids) }
    {
        let before = self.ids.version_of(request.id);
        let (outcome, offered) = match self.offer(alloc, request, hold, version) {
            Ok(found) => found,
            Err(why) => return Err(VersionError::Book(why)),
        };
        let placement = match offered {
            Some(placement) => placement,
            None => return Ok((outcome, None)),
        };
        let counts = &mut self.counts;
        match give_placing(
            taker, context, alloc, base, counts, version, old, &placement, &outcome,
        ) {
            Ok(()) => Ok((outcome, Some(placement))),
            Err(why) => {
                self.ids.restore(request.id, before);
                Err(why)
            }
        }
    }
}
