//! The sink of a run: a book, which accepts the base batches that fit, answers requests, and places,
//! releases and restores routes. The text of each accepted row is kept before the book has its version.

ghost use Rattle.std.specs.Prelude.{◌≡◌, ◌-◌, ◌<◌, ◌≤◌, false, IfOk, IfErr, OnOk, OnErr};

use crate::held_refusal::HeldRefusal;
use crate::keeper::{Keeper, Keeps, KeepsNothing, Unkept};
use crate::limits::MOST_PLACING_VERSIONS;
use crate::line::{base_lines, released};
use crate::placement_line::{held_lines, offer_line};
use crate::refusals::{PlaceRefusal, ReleaseRefusal};
use cspf_book::{AbsorbError, Book, Placement, ReleaseError, VersionError};
use cspf_ero::reply_line;
use cspf_model::{Batch, Request};
use cspf_rows::batch_text;
use cspf_stream::{BatchAnswer, BatchRefusal, Sink};
use std::alloc::{AllocError, Global};
use std::marker::Model;

/// The book of a run, and what keeps the texts of accepted rows. Its memory grows with the number of
/// placements.
#[derive(Drop)]
pub struct BookSink<S> {
    book: Book,
    /// How many base batches were accepted.
    batches: u32,
    /// How many of the book's first versions aren't counted where lines name a version.
    skipped: u32,
    keeper: Keeper<S>,
}

impl<S> Model for BookSink<S> {
    ghost use Rattle.std.specs.Prelude.{◌≤◌};
    ghost use Rattle.cspf_book_run.specs.BookSinks.{BookSinkState, sink_code};

    ghost Value = { BookSinkState S };

    ghost coded = { sink_code S.code };

    ghost view = { λ a. record { book = a.book; batches = a.batches; skipped = a.skipped; keeping = a.keeper.keeping } };

    ghost invariant = { λ a. (a.batches ≤ a.book.version) × (a.skipped ≤ a.book.version) };
}

impl<C, S: Keeps<C>> Sink<C> for BookSink<S> {
    ghost use Rattle.cspf_book_run.specs.BookSinks.{book_spec};

    ghost spec = { book_spec S.spec };

    fn version(&self) -> u32 {
        self.book.version()
    }

    fn next_number(&self) -> u32 {
        self.batches + 1
    }

    fn is_stopped(&self) -> bool {
        self.keeper.keeping.is_stopped()
    }

    fn accept(&mut self, context: &C, alloc: Global, batch: &Batch) -> BatchAnswer {
        let over = self.book.over(alloc, batch)?;
        let lost = self.book.lost(alloc, batch)?;
        let version = self.book.version() + 1 - self.skipped;
        let lines = base_lines(alloc, &over, &lost, batch.number, version)?;
        self.keeper.text = batch_text(alloc, batch)?;
        match self
            .book
            .try_absorb(&mut self.keeper, context, alloc, batch)
        {
            Ok(()) => {
                self.batches += 1;
                Ok(Ok(lines))
            }
            Err(error) => match error {
                VersionError::Book(found) => match found {
                    AbsorbError::Unfit(why) => Ok(Err(BatchRefusal::Unfit(why))),
                    AbsorbError::Memory => Err(AllocError),
                },
                VersionError::Taker(why) => match why {
                    Unkept::Failed(fault) => Ok(Err(fault.batch_refusal())),
                    Unkept::Memory => Err(AllocError),
                },
            },
        }
    }

    fn reply(&mut self, alloc: Global, request: &Request) -> Result<Vec<u8>, AllocError> {
        let outcome = self.book.ask(alloc, request)?;
        let version = self.book.version() - self.skipped;
        reply_line(alloc, request.id, version, &outcome)
    }
}

impl<S> BookSink<S> {
    /// The sink before the first row. `keeping` keeps the texts of accepted rows.
    pub(crate) fn new(alloc: Global, book: Book, keeping: S) -> BookSink<S>
        ensures { result ≡ record { book = book; batches = 0; skipped = 0; keeping = keeping } }
    {
        BookSink {
            book,
            batches: 0,
            skipped: 0,
            keeper: Keeper::new(alloc, keeping),
        }
    }

    /// The book.
    pub(crate) fn book(&self) -> &Book
        ensures { result.now ≡ self.now.book }
    {
        &self.book
    }

    /// The number by which lines name the present version of the book.
    pub(crate) fn named(&self) -> u32
        ensures { result ≡ self.now.book.version - self.now.skipped }
    {
        self.book.version() - self.skipped
    }

    /// What keeps the texts of accepted rows, in its state after the last call.
    pub(crate) fn into_keeping(self) -> S
        ensures { result ≡ self.keeping }
    {
        let BookSink {
            book: _,
            batches: _,
            skipped: _,
            keeper,
        } = self;
        keeper.into_keeping()
    }
}

impl BookSink<KeepsNothing> {
    /// The same book in a run whose accepted rows `keeping` keeps. The first `skipped` versions of the
    /// book aren't counted where lines name a version.
    pub(crate) fn going_on<T>(self, alloc: Global, keeping: T, skipped: u32) -> BookSink<T>
        requires { skipped ≤ self.book.version }
        ensures { result ≡ record { book = self.book; batches = self.batches; skipped = skipped; keeping = keeping } }
    {
        let BookSink {
            book,
            batches,
            skipped: _,
            keeper: _,
        } = self;
        BookSink {
            book,
            batches,
            skipped,
            keeper: Keeper::new(alloc, keeping),
        }
    }
}

impl<S> BookSink<S> {
    ghost use Rattle.cspf_book.specs.PlacedRoutes.{ConnectsItsEnds};
    ghost use Rattle.cspf_book_run.specs.BookScript.{BookRunState, IsPlaceAnswered, IsOfferAnswered};
    ghost use Rattle.cspf_book_run.specs.BookSinks.{IsPlacingKept, IsPlaceUnkept, IsReleased, IsReleaseUnkept};
    ghost use Rattle.cspf_book_run.specs.BookSinks.{IsHeldSaid, IsHeldUnkept, IsOfferUnkept};

    /// Places a request with the holding priority `hold`. Returns the line of the `place` row, or
    /// why the row is refused. A refused row leaves the book unchanged. If a route is placed, the
    /// row's text is kept first.
    pub(crate) fn place<C>(
        &mut self,
        context: &C,
        alloc: Global,
        text: Vec<u8>,
        request: &Request,
        hold: u8,
    ) -> Result<Result<Vec<u8>, PlaceRefusal>, AllocError>
    where
        S: Keeps<C>,
        requires setup { request.now.setup ≡ 7 }
        requires hold { hold < 8 }
        ensures placed { IfOk result (λ found. IfOk found (λ line. (s : BookRunState)
            → self.old.book ≡ s.book → self.old.skipped ≡ s.skipped
            → IsPlaceAnswered s request.now hold line.items self.new.book)) }
        ensures kept { IfOk result (λ found. OnOk found (
            IsPlacingKept S.spec self.old text.items self.new)) }
        ensures refused { IfOk result (λ found. IfErr found (λ why. (s : BookRunState)
            → self.old.book ≡ s.book → IsPlaceUnkept S.spec s request.now hold text.items
            self.old.keeping why self.new.keeping)) }
        ensures same { IfOk result (λ found. OnErr found (self.new.book ≡ self.old.book)) }
        ensures batches { self.new.batches ≡ self.old.batches }
        ensures skipped { self.new.skipped ≡ self.old.skipped }
        ensures lost { OnErr result (self.new ≡ self.old) }
    {
        if self.keeper.keeping.is_stopped() {
            return Ok(Err(PlaceRefusal::Stopped));
        }
        if self.book.version() >= MOST_PLACING_VERSIONS {
            return Ok(Err(PlaceRefusal::Exhausted));
        }
        self.keeper.text = text;
        self.keeper.id = request.id;
        self.keeper.named = self.book.version() + 1 - self.skipped;
        match self
            .book
            .place(&mut self.keeper, context, alloc, request, hold)
        {
            Ok(outcome) => {
                let version = self.book.version() - self.skipped;
                let line = self.keeper.line_of(alloc, version, &outcome)?;
                Ok(Ok(line))
            }
            Err(error) => match PlaceRefusal::of_placing(error) {
                Some(refusal) => Ok(Err(refusal)),
                None => Err(AllocError),
            },
        }
    }

    /// Releases the placement with this id. Returns the line of the `release` row, which is made
    /// before the release, or why the row is refused. A refused row leaves the book unchanged. The
    /// row's text is kept before the release.
    pub(crate) fn release<C>(
        &mut self,
        context: &C,
        alloc: Global,
        text: Vec<u8>,
        id: u64,
    ) -> Result<Result<Vec<u8>, ReleaseRefusal>, AllocError>
    where
        S: Keeps<C>,
        ensures released { IfOk result (λ found. IfOk found (λ line. (s : BookRunState)
            → self.old.book ≡ s.book → self.old.skipped ≡ s.skipped
            → IsReleased s id line.items self.new.book)) }
        ensures kept { IfOk result (λ found. OnOk found (
            IsPlacingKept S.spec self.old text.items self.new)) }
        ensures refused { IfOk result (λ found. IfErr found (λ why. (s : BookRunState)
            → self.old.book ≡ s.book → IsReleaseUnkept S.spec s id text.items
            self.old.keeping why self.new.keeping)) }
        ensures same { IfOk result (λ found. OnErr found (self.new.book ≡ self.old.book)) }
        ensures batches { self.new.batches ≡ self.old.batches }
        ensures skipped { self.new.skipped ≡ self.old.skipped }
        ensures lost { OnErr result (self.new ≡ self.old) }
    {
        if self.keeper.keeping.is_stopped() {
            return Ok(Err(ReleaseRefusal::Stopped));
        }
        if self.book.version() >= MOST_PLACING_VERSIONS {
            return Ok(Err(ReleaseRefusal::Exhausted));
        }
        let line = released(alloc, id, self.book.version() + 1 - self.skipped)?;
        self.keeper.text = text;
        match self.book.release(&mut self.keeper, context, alloc, id) {
            Ok(()) => Ok(Ok(line)),
            Err(error) => match error {
                VersionError::Book(why) => match why {
                    ReleaseError::Absent => Ok(Err(ReleaseRefusal::Absent)),
                    ReleaseError::Memory => Err(AllocError),
                },
                VersionError::Taker(why) => match why {
                    Unkept::Failed(fault) => Ok(Err(ReleaseRefusal::Failed(fault))),
                    Unkept::Memory => Err(AllocError),
                },
            },
        }
    }

    /// Restores a placement. Returns the lines of the `held` row, which are made before the book
    /// has the placement, or why the row is refused. A refused row leaves the book unchanged. The
    /// row's text is kept first.
    pub(crate) fn restore<C>(
        &mut self,
        context: &C,
        alloc: Global,
        text: Vec<u8>,
        placement: Placement,
    ) -> Result<Result<Vec<u8>, HeldRefusal>, AllocError>
    where
        S: Keeps<C>,
        requires { ConnectsItsEnds placement }
        ensures restored { IfOk result (λ found. IfOk found (λ lines. (s : BookRunState)
            → self.old.book ≡ s.book → self.old.skipped ≡ s.skipped
            → IsHeldSaid s placement lines.items self.new.book)) }
        ensures kept { IfOk result (λ found. OnOk found (
            IsPlacingKept S.spec self.old text.items self.new)) }
        ensures refused { IfOk result (λ found. IfErr found (λ why. (s : BookRunState)
            → self.old.book ≡ s.book → IsHeldUnkept S.spec s placement text.items
            self.old.keeping why self.new.keeping)) }
        ensures same { IfOk result (λ found. OnErr found (self.new.book ≡ self.old.book)) }
        ensures batches { self.new.batches ≡ self.old.batches }
        ensures skipped { self.new.skipped ≡ self.old.skipped }
        ensures lost { OnErr result (self.new ≡ self.old) }
    {
        if self.keeper.keeping.is_stopped() {
            return Ok(Err(HeldRefusal::Stopped));
        }
        if self.book.version() >= MOST_PLACING_VERSIONS {
            return Ok(Err(HeldRefusal::Exhausted));
        }
        let over = self.book.made_over(alloc, &placement)?;
        let version = self.book.version() + 1 - self.skipped;
        let lines = held_lines(alloc, &over, placement.request.id, version)?;
        self.keeper.text = text;
        match self
            .book
            .restore(&mut self.keeper, context, alloc, placement)
        {
            Ok(()) => Ok(Ok(lines)),
            Err(error) => match HeldRefusal::of_restoring(error) {
                Some(refusal) => Ok(Err(refusal)),
                None => Err(AllocError),
            },
        }
    }

    /// Answers a request as `place` would. Returns the line of the `offer` row, or why the row is
    /// refused. Nothing is placed, and nothing is kept.
    pub(crate) fn offer<C>(
        &mut self,
        alloc: Global,
        request: &Request,
        hold: u8,
    ) -> Result<Result<Vec<u8>, PlaceRefusal>, AllocError>
    where
        S: Keeps<C>,
        requires { hold < 8 }
        ensures answered { IfOk result (λ found. IfOk found (λ line. (s : BookRunState)
            → self.old.book ≡ s.book → self.old.skipped ≡ s.skipped
            → IsOfferAnswered s request.now hold line.items)) }
        ensures going { IfOk result (λ found. OnOk found (S.spec.stopped self.old.keeping ≡ false)) }
        ensures refused { IfOk result (λ found. IfErr found (λ why. (s : BookRunState)
            → self.old.book ≡ s.book → IsOfferUnkept S.spec s request.now self.old.keeping why)) }
        ensures same { self.new ≡ self.old }
    {
        if self.keeper.keeping.is_stopped() {
            return Ok(Err(PlaceRefusal::Stopped));
        }
        if self.book.version() >= MOST_PLACING_VERSIONS {
            return Ok(Err(PlaceRefusal::Exhausted));
        }
        match self.book.offer(alloc, request, hold) {
            Ok(outcome) => {
                let version = self.book.version() - self.skipped;
                let line = offer_line(alloc, request.id, version, &outcome)?;
                Ok(Ok(line))
            }
            Err(why) => match PlaceRefusal::of(why) {
                Some(refusal) => Ok(Err(refusal)),
                None => Err(AllocError),
            },
        }
    }
}
