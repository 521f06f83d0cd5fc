//! The table without the excluded links.

ghost use Rattle.std.specs.Prelude.{IfOk};
ghost use Rattle.cspf_exclusions.specs.Exclusions.{IsWithout};

use crate::exclusion::Exclusions;
use crate::listing::removals;
use crate::removal::change;
use cspf_db::Table;
use std::alloc::{AllocError, Global};

/// Removes the links from the table that the exclusions exclude, and no other links. The marks stay.
pub fn without(alloc: Global, table: Table, exclusions: &Exclusions) -> Result<Table, AllocError>
    ensures { IfOk result (λ left. IsWithout table exclusions.now left) }
{
    let removals = removals(alloc, &table, exclusions.as_slice())?;
    change(alloc, table, &removals)
}
