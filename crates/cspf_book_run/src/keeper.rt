//! What takes the versions of a run's book. The text of the row that makes a version is kept before
//! the book has the version.

ghost use Rattle.std.specs.Prelude.{◌≡◌, false, IfOk, IfErr, OnOk};
ghost use Rattle.cspf_model.specs.Outcome.{answer_of};
ghost use Rattle.cspf_book_run.specs.Keeping.{KeepSpec, IsUnkept};
ghost use Rattle.cspf_book_run.specs.declared.keeper.Unkept.TheVariants as unkept;

use crate::line::{TextResult, place_line};
use crate::write_fault::WriteFault;
use cspf_book::Taker;
use cspf_model::{Batch, Outcome};
use cspf_rows::put_all;
use std::alloc::{AllocError, Global};
use std::io::Write;
use std::mem;

/// Keeps the text of each row that makes a version of a book, before the book has the version.
/// `context` is a value that is needed to keep a text, such as the handle of a runtime.
pub trait Keeps<C> {
    /// Whether it is stopped, which texts it keeps, and how it fails to keep a text.
    ghost spec: { KeepSpec Self };

    /// Whether it is stopped, so that it keeps no more texts.
    fn is_stopped(&self) -> bool
        ensures { result ≡ spec.stopped self.now };

    /// Keeps the text of a row. `batch` is the batch of the row's version: it makes the effective
    /// database of this version from the effective database of the version before.
    fn keep(&mut self, context: &C, alloc: Global, text: &[u8], batch: &Batch) -> Result<(), Unkept>
        ensures kept { OnOk result (spec.keeps self.old text.now batch.now self.new) }
        ensures unkept { IfErr result (λ why. IsUnkept spec self.old text.now batch.now why self.new) };
}

/// The writer `keep`, and whether a write to it has failed.
#[derive(Drop)]
pub struct Keeping<K> {
    keep: K,
    stopped: bool,
}

/// Keeps no text, and never fails.
#[derive(Clone, Copy, Debug)]
pub struct KeepsNothing;

/// Why the text of a row isn't kept.
#[derive(Clone, Copy, Debug, PartialEq, Eq)]
pub enum Unkept {
    /// Memory was refused before the write.
    Memory,
    /// A write failed.
    Failed(WriteFault),
}

impl From<AllocError> for Unkept {
    ghost from_gives = { λ _ why. why ≡ unkept.Memory };

    fn from(_refused: AllocError) -> Unkept {
        Unkept::Memory
    }
}

impl<C, K: Write> Keeps<C> for Keeping<K> {
    ghost use Rattle.cspf_book_run.specs.Keeping.{writer_spec};

    ghost spec = { writer_spec K.contents };

    fn is_stopped(&self) -> bool {
        self.stopped
    }

    fn keep(
        &mut self,
        _context: &C,
        _alloc: Global,
        text: &[u8],
        _batch: &Batch,
    ) -> Result<(), Unkept> {
        match put_all(&mut self.keep, text) {
            Ok(()) => Ok(()),
            Err(written) => {
                self.stopped = true;
                Err(Unkept::Failed(WriteFault::Keep { written }))
            }
        }
    }
}

impl<K> Keeping<K> {
    /// The writer `keep`, before a write to it.
    pub(crate) fn new(keep: K) -> Keeping<K>
        ensures { result ≡ record { keep = keep; stopped = false } }
    {
        Keeping {
            keep,
            stopped: false,
        }
    }

    /// The writer `keep`, in its state after the last write.
    pub(crate) fn into_keep(self) -> K
        ensures { result ≡ self.keep }
    {
        let Keeping { keep, stopped: _ } = self;
        keep
    }
}

impl<C> Keeps<C> for KeepsNothing {
    ghost use Rattle.cspf_book_run.specs.Keeping.{nothing_spec};

    ghost spec = { nothing_spec };

    fn is_stopped(&self) -> bool {
        false
    }

    fn keep(
        &mut self,
        _context: &C,
        _alloc: Global,
        _text: &[u8],
        _batch: &Batch,
    ) -> Result<(), Unkept> {
        Ok(())
    }
}

/// Takes the versions of a run's book, and keeps the text of the row that makes each of them.
#[derive(Drop)]
pub struct Keeper<S> {
    /// What keeps the texts.
    pub(crate) keeping: S,
    /// The text of the row that is answered.
    pub(crate) text: Vec<u8>,
    /// The id of the request, if a `place` row is answered.
    pub(crate) id: u64,
    /// The number by which the line of a `place` row names the version that its route makes.
    pub(crate) named: u32,
    /// The line of the last request that was placed. It is made before its row is kept.
    pub(crate) line: Vec<u8>,
}

impl<C, S: Keeps<C>> Taker<C> for Keeper<S> {
    type Refusal = Unkept;

    ghost use Rattle.cspf_book_run.specs.BookLines.{IsPlaceReply};

    ghost takes = { λ before b after. S.spec.keeps before.keeping before.text.items b after.keeping };

    ghost places = { λ before b answer after. S.spec.keeps before.keeping before.text.items b after.keeping
        × IsPlaceReply before.id before.named answer after.line.items };

    ghost refuses = { λ before b why after. IsUnkept S.spec before.keeping before.text.items b why after.keeping };

    fn take(&mut self, context: &C, alloc: Global, batch: &Batch) -> Result<(), Unkept> {
        self.keeping
            .keep(context, alloc, self.text.as_slice(), batch)
    }

    fn take_placing(
        &mut self,
        context: &C,
        alloc: Global,
        batch: &Batch,
        outcome: &Outcome,
    ) -> Result<(), Unkept> {
        self.line = place_line(alloc, self.id, self.named, outcome)?;
        self.keeping
            .keep(context, alloc, self.text.as_slice(), batch)
    }
}

impl<S> Keeper<S> {
    ghost use Rattle.std.specs.Prelude.{OnErr};
    ghost use Rattle.cspf_book_run.specs.Keeping.{IsLineOf, IsUnrouted};

    /// The keeper before the first row.
    pub(crate) fn new(alloc: Global, keeping: S) -> Keeper<S>
        ensures { result.keeping ≡ keeping }
    {
        Keeper {
            keeping,
            text: Vec::new(alloc),
            id: 0,
            named: 0,
            line: Vec::new(alloc),
        }
    }

    /// The line of a `place` row with this outcome, at this version. If the outcome is a route, the
    /// line was made before the row was kept.
    pub(crate) fn line_of(&mut self, alloc: Global, version: u32, outcome: &Outcome) -> TextResult
        ensures line { IfOk result (λ line. IsLineOf self.old.line.items self.old.id version
            (answer_of outcome.now) line.items) }
        ensures unrouted { OnErr result (IsUnrouted (answer_of outcome.now)) }
        ensures same { self.new.keeping ≡ self.old.keeping }
    {
        match outcome {
            Outcome::Route(_placed) => Ok(mem::replace(&mut self.line, Vec::new(alloc))),
            _ => place_line(alloc, self.id, version, outcome),
        }
    }

    /// What keeps the texts, in its state after the last row.
    pub(crate) fn into_keeping(self) -> S
        ensures { result ≡ self.keeping }
    {
        let Keeper {
            keeping,
            text: _,
            id: _,
            named: _,
            line: _,
        } = self;
        keeping
    }
}
