//! Finds the best answer to a request that is to be placed. If the answer is a route that may be
//! placed, the placement is returned with the answer.

ghost use Rattle.std.specs.Prelude.{◌≡◌, ◌↔◌, ◌-◌, ◌<◌, ◌≤◌, IfOk, IfErr, IfSome, IfNone, OnErr, IsTrue, length};
ghost use Rattle.cspf_model.specs.Best.{IsBestAnswer, route};
ghost use Rattle.cspf_model.specs.Database.{HaveOwnKeys};
ghost use Rattle.cspf_model.specs.Outcome.{answer_of};
ghost use Rattle.cspf_book.specs.declared.limits.TheConstants.{MOST_PLACED_LINKS, MOST_ROUTES_LINKS};
ghost use Rattle.cspf_book.specs.BookState.{IsPlacementOf};
ghost use Rattle.cspf_book.specs.Placements.{ArePassedOnce};
ghost use Rattle.cspf_book.specs.Offers.{IsOffered, IsAnswerRefused, IsWalkRefused, IsOfferRefused};
ghost use Rattle.cspf_book.specs.Kept.{HasSameSums, KeepsKeys, HasKeys};
ghost use Rattle.cspf_book.specs.ById.{HasSameIds, HasEntered};

use crate::counting::has_key;
use crate::error::PlaceError;
use crate::limits::{MOST_PLACED_LINKS, MOST_ROUTES_LINKS};
use crate::moves::Held;
use crate::path::{Passed, Path};
use crate::placement::Placement;
use cspf_model::{Outcome, Request, Route};
use cspf_search::best;
use std::alloc::Global;

/// Whether no two of the links have the same key.
pub(crate) fn has_own_keys(links: &[Passed]) -> bool
    ensures { IsTrue result ↔ ArePassedOnce links.now }
{
    for (i, link) in links.iter().enumerate() {
        if has_key(&links[i + 1..], link.from, link.local) {
            return false;
        }
    }
    true
}

/// The placement of a request along a route. A route is refused if it uses a link twice, has more
/// than `MOST_PLACED_LINKS` links, or has more than `room` links.
fn placement_on(
    alloc: Global,
    route: &Route,
    request: &Request,
    hold: u8,
    room: usize,
) -> Result<Placement, PlaceError>
    requires { hold < 8 }
    ensures own_keys { IfOk result (λ p. HaveOwnKeys route.now) }
    ensures placement { IfOk result (λ p. IsPlacementOf request.now hold route.now p) }
    ensures short { IfOk result (λ p. length route.now ≤ MOST_PLACED_LINKS) }
    ensures room { IfOk result (λ p. length route.now ≤ room) }
    ensures refused { IfErr result (λ why. IsWalkRefused room route.now why) }
{
    let path = Path::of(alloc, route)?;
    let links = path.links();
    if !has_own_keys(links) {
        return Err(PlaceError::Twice);
    }
    if links.len() > MOST_PLACED_LINKS {
        return Err(PlaceError::TooLong);
    }
    if links.len() > room {
        return Err(PlaceError::TooManyLinks);
    }
    Ok(Placement {
        request: *request,
        hold,
        route: path,
    })
}

/// Returns the answer of the search. If the answer is a route, its placement is returned too. A
/// route that can't be placed is an error (`placement_on`).
fn offer_of(
    alloc: Global,
    outcome: Outcome,
    request: &Request,
    hold: u8,
    room: usize,
) -> Result<(Outcome, Option<Placement>), PlaceError>
    requires { hold < 8 }
    ensures same { IfOk result (λ offered. offered.0 ≡ outcome) }
    ensures placement { IfOk result (λ offered.
        IsOffered request.now hold room (answer_of outcome) offered.1) }
    // The error says why the route isn't placed.
    ensures refused { IfErr result (IsAnswerRefused room (answer_of outcome)) }
{
    match outcome {
        Outcome::Route(route) => {
            let placement = placement_on(alloc, &route, request, hold, room)?;
            Ok((Outcome::Route(route), Some(placement)))
        }
        other => Ok((other, None)),
    }
}

impl Held {
    /// The best answer to a request in the effective database. If the answer is a route, its
    /// placement is returned too. A route that can't be placed is an error (`placement_on`).
    pub(crate) fn find_offer(
        &self,
        alloc: Global,
        request: &Request,
        hold: u8,
    ) -> Result<(Outcome, Option<Placement>), PlaceError>
        requires hold { hold < 8 }
        requires few { self.now.links ≤ MOST_ROUTES_LINKS }
        ensures best { IfOk result (λ offered.
            IsBestAnswer self.now.effective request.now (answer_of offered.0)) }
        ensures placement { IfOk result (λ offered. IsOffered request.now hold
            (MOST_ROUTES_LINKS - self.now.links) (answer_of offered.0) offered.1) }
        ensures refused { IfErr result (λ why. IsOfferRefused self.now.effective request.now
            (MOST_ROUTES_LINKS - self.now.links) why) }
    {
        let answer = best(alloc, &self.effective, request)?;
        let room = MOST_ROUTES_LINKS - self.links;
        offer_of(alloc, answer, request, hold, room)
    }

    /// The best answer to a request in the effective database. If the answer is a route, its
    /// placement in this version of the book is returned too. A route that can't be placed is an
    /// error (`placement_on`). If there is a placement, entries of the sums are also made for its
    /// links, and `version` is entered for its id. No sum changes. After an error, no id has
    /// changed.
    pub(crate) fn offer(
        &mut self,
        alloc: Global,
        request: &Request,
        hold: u8,
        version: u32,
    ) -> Result<(Outcome, Option<Placement>), PlaceError>
        requires hold { hold < 8 }
        requires few { self.old.links ≤ MOST_ROUTES_LINKS }
        ensures best { IfOk result (λ offered.
            IsBestAnswer self.old.effective request.now (answer_of offered.0)) }
        ensures placement { IfOk result (λ offered. IsOffered request.now hold
            (MOST_ROUTES_LINKS - self.old.links) (answer_of offered.0) offered.1) }
        ensures refused { IfErr result (λ why. IsOfferRefused self.old.effective request.now
            (MOST_ROUTES_LINKS - self.old.links) why) }
        ensures effective { self.new.effective ≡ self.old.effective }
        ensures links { self.new.links ≡ self.old.links }
        ensures one { self.new.one ≡ self.old.one }
        ensures sums { HasSameSums self.old.counts self.new.counts }
        ensures kept { KeepsKeys self.old.counts self.new.counts }
        ensures keys { IfOk result (λ offered. IfSome offered.1 (λ p. HasKeys self.new.counts p.route)) }
        ensures versions { self.new.ids.versions ≡ self.old.ids.versions }
        ensures bits { self.new.ids.bits ≡ self.old.ids.bits }
        ensures entered { IfOk result (λ offered. IfSome offered.1 (λ p.
            HasEntered self.old.ids self.new.ids request.now.id version)) }
        ensures none { IfOk result (λ offered. IfNone offered.1
            (HasSameIds self.old.ids self.new.ids)) }
        ensures err { OnErr result (HasSameIds self.old.ids self.new.ids) }
    {
        let (outcome, offered) = self.find_offer(alloc, request, hold)?;
        match offered {
            Some(placement) => {
                self.counts.enter(placement.route.links())?;
                self.ids.enter(request.id, version)?;
                Ok((outcome, Some(placement)))
            }
            None => Ok((outcome, None)),
        }
    }
}
