//! A book: a base database, the placements over it, and the effective database. This is the base,
//! with the bandwidth that the placements leave on its links.

ghost use Rattle.std.specs.Prelude.{◌≡◌, ◌<◌, [], IsTrue, IfOk, IfErr, OnOk, OnErr};
ghost use Rattle.std.specs.Option.{option_map};
ghost use Rattle.cspf_model.specs.Best.{IsBestAnswer};
ghost use Rattle.cspf_model.specs.Changes.{no_links, after_changes, Fits};
ghost use Rattle.cspf_model.specs.Numbered.{NumberedChanges};
ghost use Rattle.cspf_model.specs.Outcome.{answer_of};
ghost use Rattle.cspf_model.specs.declared.limits.TheConstants.{MOST_VERSIONS};
ghost use Rattle.cspf_book.specs.Placements.{id_of, placement_of, has_id, counted};
ghost use Rattle.cspf_book.specs.Effective.{effective};
ghost use Rattle.cspf_book.specs.BookState.{BookState, effective_beside, HasRoomFor, IsAnswerPlaced, IsPlaceError};
ghost use Rattle.cspf_book.specs.PlacedRoutes.{ConnectsItsEnds, ArePlaced};
ghost use Rattle.cspf_book.specs.Leading.{IsMoveBatch, IsBaseBatch};
ghost use Rattle.cspf_book.specs.Takings.{after_absorbing, after_releasing, IsPlacingTaken, IsUnplaced, IsUnreleased, IsUnabsorbed};
ghost use Rattle.cspf_book.specs.Restoring.{MayBeAdded, after_restoring, IsUnrestored};
ghost use Rattle.cspf_book.specs.OverLinks.{over, made_over};
ghost use Rattle.cspf_book.specs.LinkFigures.{figures_at};
ghost use Rattle.cspf_book.specs.LostRoutes.{AreLost};

use crate::counts::Counts;
use crate::effective_links::within_limits;
use crate::error::{AbsorbError, PlaceError, ReleaseError, RestoreError, VersionError};
use crate::giving::give_release;
use crate::leading::{base_batch, placement_at, route_at};
use crate::limits::MOST_PLACEMENTS;
use crate::link_figures::{LinkFigures, figures_of};
use crate::lost::lost;
use crate::moves::{Held, enter_at, forget_at, take_out};
use crate::over::{Over, find_made_over, find_over};
use crate::placement::Placement;
use crate::taker::Taker;
use crate::versions::Ids;
use cspf_addr::Addr;
use cspf_db::Table;
use cspf_model::{Batch, Change, Outcome, Request};
use cspf_search::best;
use std::alloc::{AllocError, Global};
use std::marker::Model;

/// A base database and the placements over it. A request is placed along the best route in the
/// effective database, whose links have the bandwidth that earlier placements leave. From then on,
/// the placement holds the request's bandwidth on each link of this route. No placement is
/// preempted.
#[derive(Drop)]
pub struct Book {
    base: Table,
    held: Held,
    placements: Vec<Placement>,
    version: u32,
}

impl Model for Book {
    ghost use Rattle.cspf_book.specs.BookState.{BookState, state_code};

    ghost Value = { BookState };

    ghost coded = { state_code };

    ghost use Rattle.cspf_book.specs.Inside.{IsBook};

    ghost view = { λ a. record { base = a.base; version = a.version; placements = a.placements.items } };

    ghost invariant = { IsBook };
}

impl Book {
    /// An empty book, of version 0: the base has no links, and there are no placements.
    pub fn new(alloc: Global) -> Result<Book, AllocError>
        ensures { IfOk result (λ book. book ≡ record { base = no_links; version = 0; placements = [] }) }
    {
        let mut changes = Vec::new(alloc);
        changes.push(Change::Remove {
            from: Addr::new(0),
            local: Addr::new(0),
        })?;
        Ok(Book {
            base: Table::new(alloc)?,
            held: Held {
                effective: Table::new(alloc)?,
                counts: Counts::new(alloc),
                ids: Ids::new(alloc),
                links: 0,
                one: Batch { number: 0, changes },
            },
            placements: Vec::new(alloc),
            version: 0,
        })
    }

    /// The version: the number of accepted base batches, placements, releases and restored
    /// placements, taken together.
    pub fn version(&self) -> u32
        ensures { result ≡ self.now.version }
    {
        self.version
    }

    /// The base: the database that results from the base's batches.
    pub fn base(&self) -> &Table
        ensures { result.now ≡ self.now.base }
    {
        &self.base
    }

    /// The effective database: the base, with the bandwidth that the placements leave on its links.
    pub fn effective(&self) -> &Table
        ensures { result.now ≡ effective self.now.base self.now.placements }
    {
        &self.held.effective
    }

    /// The placements, in the order in which they were placed or restored.
    pub fn placements(&self) -> &[Placement]
        ensures all { result.now ≡ self.now.placements }
        ensures placed { ArePlaced self.now.placements }
    {
        self.placements.as_slice()
    }

    /// The placement with this id, if there is one.
    pub fn placement(&self, id: u64) -> Option<&Placement>
        ensures { option_map (λ p. p.now) result ≡ placement_of id self.now.placements }
    {
        placement_at(&self.placements, self.held.ids.index_of(id))
    }

    /// How much bandwidth the placements count at a priority on the link with this key.
    pub fn counted(&self, from: Addr, local: Addr, priority: u8) -> u128
        ensures { result ≡ counted self.now.placements (from, local) priority }
    {
        self.held.counts.sum(from, local, priority.min(7))
    }

    /// The figures of the base's link with this key: its bandwidths in the base, the bandwidth that
    /// the placements count, and what is left. `None` if the base has no such link.
    pub fn left(&self, from: Addr, local: Addr) -> Option<LinkFigures>
        ensures { result ≡ figures_at self.now.base self.now.placements (from, local) }
    {
        match self.base.find(from, local) {
            Some(link) => Some(figures_of(&self.held.counts, &link)),
            None => None,
        }
    }

    /// The best answer to a request in the effective database. The request isn't placed, and no
    /// bandwidth is held.
    pub fn ask(&self, alloc: Global, request: &Request) -> Result<Outcome, AllocError>
        ensures { IfOk result (λ outcome. IsBestAnswer (effective self.now.base self.now.placements)
            request.now (answer_of outcome)) }
    {
        best(alloc, &self.held.effective, request)
    }

    /// Lists the links that the batch sets (`Put`), each with the priorities at which the
    /// placements count more bandwidth than the link then has. The entries are in the order of the
    /// batch. The entries of one link go from priority 0 to 7. The call doesn't check whether the
    /// batch fits.
    pub fn over(&self, alloc: Global, batch: &Batch) -> Result<Vec<Over>, AllocError>
        ensures { IfOk result (λ list. list.items ≡ over self.now.placements batch.now.changes) }
    {
        find_over(alloc, &self.held.counts, &batch.changes)
    }

    /// Lists the base's links on the route of a placement that isn't in the book yet, each with the
    /// priorities at which it makes the placements count more bandwidth than the link has. The
    /// entries are in the order of the route. The entries of one link go from priority 0 to 7. The
    /// call doesn't check whether the placement may be restored.
    pub fn made_over(&self, alloc: Global, placement: &Placement) -> Result<Vec<Over>, AllocError>
        ensures { IfOk result (λ list.
            list.items ≡ made_over self.now.base self.now.placements placement.now) }
    {
        find_made_over(alloc, &self.base, &self.held.counts, placement)
    }

    /// The ids of the placements that lose their routes by the batch: the base admits the route
    /// now, and wouldn't admit it after the changes. Bandwidth doesn't matter. The ids are sorted
    /// by holding priority from 7 (the least important) to 0, and then by id. The call doesn't
    /// check whether the batch fits.
    pub fn lost(&self, alloc: Global, batch: &Batch) -> Result<Vec<u64>, AllocError>
        ensures { IfOk result (λ ids. AreLost self.now.base
            (after_changes self.now.base batch.now.changes) self.now.placements ids.items) }
    {
        lost(
            alloc,
            &self.base,
            &self.placements,
            self.held.ids.bits(),
            &batch.changes,
        )
    }

    /// Makes all changes of a batch in the base if the batch fits and the taker takes the same
    /// changes of the effective database. Otherwise changes nothing. All placements stay, even if
    /// the base then has less bandwidth than the placements hold. The batch's number isn't checked.
    pub fn try_absorb<C, S: Taker<C>>(
        &mut self,
        taker: &mut S,
        context: &C,
        alloc: Global,
        batch: &Batch,
    ) -> Result<(), VersionError<AbsorbError, S::Refusal>>
        requires { self.old.version < MOST_VERSIONS }
        ensures ok { OnOk result (Fits self.old.base batch.now) }
        ensures changed { OnOk result (self.new ≡ after_absorbing self.old batch.now.changes) }
        ensures taken { OnOk result ((made : NumberedChanges)
            × IsBaseBatch self.old batch.now.changes made self.new
            × S.takes taker.old made taker.new) }
        ensures err { IfErr result (λ why.
            IsUnabsorbed S.refuses self.old batch.now taker.old why taker.new) }
        ensures same { OnErr result (self.new ≡ self.old) }
    {
        within_limits(&self.base);
        let plan = match self.base.plan(batch) {
            Ok(plan) => plan,
            Err(why) => return Err(VersionError::Book(AbsorbError::Unfit(why))),
        };
        let next = self.version + 1;
        let made = base_batch(alloc, &self.held.counts, next, &batch.changes)?;
        match taker.take(context, alloc, &made) {
            Ok(()) => {
                self.base.absorb_planned(batch, plan);
                self.held.effective.absorb(&made);
                self.version = next;
                Ok(())
            }
            Err(why) => Err(VersionError::Taker(why)),
        }
    }

    /// Places a request, whose setup priority has to be 7. First the best answer is found in the
    /// effective database. An earlier placement with the request's id isn't counted in this search.
    /// If the answer is a route, the taker is given the batch of the placing. If it takes the batch,
    /// the request is placed along the route, and the new placement replaces the earlier placement.
    /// Any other answer changes nothing, and an error changes nothing either.
    pub fn place<C, S: Taker<C>>(
        &mut self,
        taker: &mut S,
        context: &C,
        alloc: Global,
        request: &Request,
        hold: u8,
    ) -> Result<Outcome, VersionError<PlaceError, S::Refusal>>
        requires setup { request.now.setup ≡ 7 }
        requires hold { hold < 8 }
        requires room { self.old.version < MOST_VERSIONS }
        ensures best { IfOk result (λ outcome.
            IsBestAnswer (effective_beside self.old request.now.id) request.now (answer_of outcome)) }
        ensures few { OnOk result (HasRoomFor self.old request.now.id) }
        ensures placed { IfOk result (λ outcome.
            IsAnswerPlaced self.old request.now hold (answer_of outcome) self.new) }
        ensures taken { IfOk result (λ outcome. IsPlacingTaken S.places self.old request.now.id
            taker.old (answer_of outcome) self.new taker.new) }
        ensures why { IfErr result (λ why.
            IsUnplaced S.refuses self.old request.now hold taker.old why taker.new) }
        ensures same { OnErr result (self.new ≡ self.old) }
    {
        let at = self.held.ids.index_of(request.id);
        if at == MOST_PLACEMENTS {
            return Err(VersionError::Book(PlaceError::Full));
        }
        within_limits(&self.base);
        self.held.make_room(&mut self.placements, at)?;
        self.held.set_aside(&self.base, &self.placements, at);
        let next = self.version + 1;
        let old = route_at(&self.placements, at);
        let answer = match self.held.propose(
            taker, context, alloc, &self.base, old, request, hold, next,
        ) {
            Ok((outcome, offered)) => match offered {
                Some(placement) => {
                    self.held
                        .put_in(&self.base, &mut self.placements, at, next, placement);
                    self.version = next;
                    return Ok(outcome);
                }
                None => Ok(outcome),
            },
            Err(why) => Err(why),
        };
        self.held.set_back(&self.base, &self.placements, at);
        answer
    }

    /// Answers a request as `place` would, with the same refusals of the book, but places nothing.
    /// The book is as before, whatever the result.
    pub fn offer(
        &mut self,
        alloc: Global,
        request: &Request,
        hold: u8,
    ) -> Result<Outcome, PlaceError>
        requires hold { hold < 8 }
        requires room { self.old.version < MOST_VERSIONS }
        ensures best { IfOk result (λ outcome.
            IsBestAnswer (effective_beside self.old request.now.id) request.now (answer_of outcome)) }
        ensures few { OnOk result (HasRoomFor self.old request.now.id) }
        // `place` would make this book of the present one.
        ensures may { IfOk result (λ outcome. (placed : BookState)
            × IsAnswerPlaced self.old request.now hold (answer_of outcome) placed) }
        ensures why { IfErr result (λ why. IsPlaceError self.old request.now why) }
        ensures same { self.new ≡ self.old }
    {
        let at = self.held.ids.index_of(request.id);
        if at == MOST_PLACEMENTS {
            return Err(PlaceError::Full);
        }
        within_limits(&self.base);
        enter_at(&mut self.held.counts, &self.placements, at)?;
        self.held.set_aside(&self.base, &self.placements, at);
        let answer = match self.held.find_offer(alloc, request, hold) {
            Ok((outcome, _offered)) => Ok(outcome),
            Err(why) => Err(why),
        };
        self.held.set_back(&self.base, &self.placements, at);
        answer
    }

    /// Adds a placement with its route, without a search, if the taker takes the batch of the route.
    /// The route has to lead from the request's head-end to its tail-end (`Path::leads`). The base
    /// isn't looked at: it may lack links of the route, or have too little bandwidth for it. An error
    /// changes nothing.
    pub fn restore<C, S: Taker<C>>(
        &mut self,
        taker: &mut S,
        context: &C,
        alloc: Global,
        placement: Placement,
    ) -> Result<(), VersionError<RestoreError, S::Refusal>>
        requires ends { ConnectsItsEnds placement }
        requires room { self.old.version < MOST_VERSIONS }
        ensures ok { OnOk result (MayBeAdded self.old.placements placement) }
        ensures restored { OnOk result (self.new ≡ after_restoring self.old placement) }
        ensures taken { OnOk result ((made : NumberedChanges)
            × IsMoveBatch self.old (id_of placement) made self.new
            × S.takes taker.old made taker.new) }
        ensures why { IfErr result (λ why.
            IsUnrestored S.refuses self.old placement taker.old why taker.new) }
        ensures same { OnErr result (self.new ≡ self.old) }
    {
        match self.held.test_adding(&self.placements, &placement) {
            Ok(()) => {}
            Err(why) => return Err(VersionError::Book(why)),
        }
        within_limits(&self.base);
        let at = self.placements.len();
        self.held.make_room(&mut self.placements, at)?;
        let next = self.version + 1;
        match self
            .held
            .restore(taker, context, alloc, &self.base, &placement, next)
        {
            Ok(()) => {
                self.held
                    .put_in(&self.base, &mut self.placements, at, next, placement);
                self.version = next;
                Ok(())
            }
            Err(why) => Err(why),
        }
    }

    /// Releases the placement with this id, if the taker takes the batch of the release. If no
    /// placement has the id, nothing changes, and an error changes nothing.
    pub fn release<C, S: Taker<C>>(
        &mut self,
        taker: &mut S,
        context: &C,
        alloc: Global,
        id: u64,
    ) -> Result<(), VersionError<ReleaseError, S::Refusal>>
        requires { self.old.version < MOST_VERSIONS }
        ensures ok { OnOk result (IsTrue (has_id id self.old.placements)) }
        ensures released { OnOk result (self.new ≡ after_releasing self.old id) }
        ensures taken { OnOk result ((made : NumberedChanges)
            × IsMoveBatch self.old id made self.new × S.takes taker.old made taker.new) }
        ensures why { IfErr result (λ why.
            IsUnreleased S.refuses self.old id taker.old why taker.new) }
        ensures same { OnErr result (self.new ≡ self.old) }
    {
        let at = self.held.ids.index_of(id);
        if at == self.placements.len() {
            return Err(VersionError::Book(ReleaseError::Absent));
        }
        within_limits(&self.base);
        enter_at(&mut self.held.counts, &self.placements, at)?;
        self.held.set_aside(&self.base, &self.placements, at);
        let next = self.version + 1;
        let old = route_at(&self.placements, at);
        match give_release(
            taker,
            context,
            alloc,
            &self.base,
            &self.held.counts,
            next,
            old,
        ) {
            Ok(()) => {
                forget_at(&mut self.held.counts, &self.placements, at);
                take_out(&mut self.placements, at);
                self.held.ids.forget(id, at);
                self.version = next;
                Ok(())
            }
            Err(why) => {
                self.held.set_back(&self.base, &self.placements, at);
                Err(why)
            }
        }
    }
}
