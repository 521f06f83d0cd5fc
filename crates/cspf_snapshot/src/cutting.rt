ghost use Rattle.std.specs.Prelude.{◌≡◌, ◌+◌, ◌≤◌, length, IfOk};
ghost use Rattle.cspf_model.specs.Numbered.{AreNumberedFrom};
ghost use Rattle.cspf_model.specs.declared.limits.TheConstants.{MOST_LINKS, MOST_MARKS};
ghost use Rattle.cspf_model.specs.Changes.{changes_of};
ghost use Rattle.cspf_snapshot.specs.Snapshots.{AreFullButLast};

use cspf_model::{Batch, Change, MOST_CHANGES};
use std::alloc::{AllocError, Global};

/// Cuts the changes, in order, into batches that are numbered from 1. Each batch except the last
/// one has `MOST_CHANGES` changes.
pub(crate) fn cut_into_batches(alloc: Global, changes: &[Change]) -> Result<Vec<Batch>, AllocError>
    requires { length changes.now ≤ MOST_LINKS + MOST_MARKS }
    ensures all { IfOk result (λ batches. changes_of batches.items ≡ changes.now) }
    ensures numbers { IfOk result (λ batches. AreNumberedFrom 1 batches.items) }
    ensures full { IfOk result (λ batches. AreFullButLast batches.items) }
{
    let mut batches = Vec::new(alloc);
    let mut number = 0;
    let mut rest = changes;
    while !rest.is_empty() {
        let (front, behind) = rest.split_at(rest.len().min(MOST_CHANGES));
        number += 1;
        let changes = Vec::from_slice(alloc, front)?;
        batches.push(Batch { number, changes })?;
        rest = behind;
    }
    Ok(batches)
}
