//! What takes the versions of a book, each as a batch of changes.

ghost use Rattle.std.specs.Prelude.{OnOk, IfErr};
ghost use Rattle.cspf_model.specs.Best.{Answer};
ghost use Rattle.cspf_model.specs.Numbered.{NumberedChanges};
ghost use Rattle.cspf_model.specs.Outcome.{answer_of};

use cspf_model::{Batch, Outcome};
use std::alloc::Global;

/// Takes each version of a book as a batch of changes of its effective database, before the book
/// has that version. A batch that the taker refuses changes nothing in the book. `context` is a
/// value that the taker needs, such as the handle of a runtime.
pub trait Taker<C> {
    /// Why a batch isn't taken.
    type Refusal;

    /// A relation between the state before the call, a batch that is taken, and the state after
    /// the call.
    ghost takes: { Self → NumberedChanges → Self → Type 0 };

    /// A relation between the state before the call, the batch of a placing that is taken, the
    /// answer to the request, and the state after the call.
    ghost places: { Self → NumberedChanges → Answer → Self → Type 0 };

    /// A relation between the state before the call, a batch that is refused, why it is refused,
    /// and the state after the call.
    ghost refuses: { Self → NumberedChanges → Self.Refusal → Self → Type 0 };

    /// Takes the batch of a release, of a restored placement or of changes of the base, or refuses
    /// it.
    fn take(&mut self, context: &C, alloc: Global, batch: &Batch) -> Result<(), Self::Refusal>
        ensures taken { OnOk result (takes self.old batch.now self.new) }
        ensures refused { IfErr result (λ why. refuses self.old batch.now why self.new) };

    /// Takes the batch of a placing, or refuses it. `outcome` is the answer to the request, which
    /// is a route. It is known only when the batch is made, and what the taker tells of the
    /// placing may need it before the batch is taken.
    fn take_placing(
        &mut self,
        context: &C,
        alloc: Global,
        batch: &Batch,
        outcome: &Outcome,
    ) -> Result<(), Self::Refusal>
        ensures taken { OnOk result (places self.old batch.now (answer_of outcome.now) self.new) }
        ensures refused { IfErr result (λ why. refuses self.old batch.now why self.new) };
}

/// Takes each batch, and does nothing with it.
#[derive(Clone, Copy, Debug)]
pub struct TakesAll;

impl<C> Taker<C> for TakesAll {
    type Refusal = ();

    ghost use Rattle.std.specs.Prelude.{◌≡◌};

    ghost takes = { λ before b after. after ≡ before };

    ghost places = { λ before b answer after. after ≡ before };

    // No batch is refused.
    ghost refuses = { λ before b why after. ⊥ };

    fn take(&mut self, _context: &C, _alloc: Global, _batch: &Batch) -> Result<(), ()> {
        Ok(())
    }

    fn take_placing(
        &mut self,
        _context: &C,
        _alloc: Global,
        _batch: &Batch,
        _outcome: &Outcome,
    ) -> Result<(), ()> {
        Ok(())
    }
}
