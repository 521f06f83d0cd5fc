//! The open changes of a stream: the changes since its last `end` row.

ghost use Rattle.std.specs.Prelude.{◌≡◌, ◌+◌, ◌∷◌, ◌++◌, ◌<◌, ◌^◌, [], List, IfOk, OnOk, OnErr, take};
ghost use Rattle.cspf_model.specs.declared.batch.Change.{Change as Changed};
ghost use Rattle.cspf_stream.specs.Lines.{end_line};
ghost use Rattle.cspf_stream.specs.OpenChanges.{AreOpen};

use crate::StreamLine;
use crate::limits::KEPT_CHANGES;
use cspf_model::{Batch, Change};
use std::alloc::{AllocError, Global};

/// The changes of a stream since its last `end` row. Only the first changes are kept: at most one
/// change more than a batch may have.
#[derive(Drop)]
pub struct OpenChanges {
    /// The kept changes, as a batch. The number of this batch has no meaning.
    pub batch: Batch,
    /// How many changes are open.
    pub count: u64,
}

impl OpenChanges {
    /// The open changes before the first row of a stream: there are none.
    pub fn new(alloc: Global) -> OpenChanges
        ensures open { AreOpen result [] }
        ensures none { result.count ≡ 0 }
    {
        OpenChanges {
            batch: Batch {
                number: 0,
                changes: Vec::new(alloc),
            },
            count: 0,
        }
    }

    /// Adds a change to the open changes.
    pub fn add(&mut self, change: Change) -> Result<(), AllocError>
        requires { self.old.count + 1 < 2 ^ 64 }
        ensures open { OnOk result ((all : List Changed) → AreOpen self.old all
            → AreOpen self.new (all ++ change ∷ [])) }
        ensures more { OnOk result (self.new.count ≡ self.old.count + 1) }
        ensures same { OnErr result (self.new ≡ self.old) }
    {
        keep(&mut self.batch.changes, change)?;
        self.count += 1;
        Ok(())
    }

    /// Drops all open changes.
    pub fn clear(&mut self)
        ensures open { AreOpen self.new [] }
        ensures none { self.new.count ≡ 0 }
    {
        self.batch.changes.clear();
        self.count = 0;
    }

    /// The last line of a stream that ends with these open changes. The line says how many changes
    /// are open, and is empty if no changes are open.
    pub fn last_line(&self, alloc: Global) -> Result<Vec<u8>, AllocError>
        ensures { IfOk result (λ line. (all : List Changed) → AreOpen self.now all
            → line.items ≡ end_line all) }
    {
        if self.count == 0 {
            return Ok(Vec::new(alloc));
        }
        let count = self.count;
        StreamLine::Unended { count }.bytes(alloc)
    }
}

/// Appends a change to the kept changes if fewer than `KEPT_CHANGES` changes are kept.
fn keep(changes: &mut Vec<Change>, change: Change) -> Result<(), AllocError>
    ensures kept { OnOk result ((all : List Changed) → changes.old.items ≡ take KEPT_CHANGES all
        → changes.new.items ≡ take KEPT_CHANGES (all ++ change ∷ [])) }
    ensures same { OnErr result (changes.new.items ≡ changes.old.items) }
{
    if changes.len() >= KEPT_CHANGES {
        return Ok(());
    }
    changes.push(change)?;
    Ok(())
}
