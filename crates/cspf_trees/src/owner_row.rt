//! A row that keeps a prefix and the only router that owns it.

ghost use Rattle.std.specs.Prelude.{◌≡◌, ◌<◌, All, IfOk, IfSome, length};
ghost use Rattle.cspf_model.specs.Database.{Database};
ghost use Rattle.cspf_trees.specs.LegsInTurn.{IsSoleOwner};
ghost use Rattle.cspf_trees.specs.OwnerRows.{HasOwnerOf, IsEmptyOwnerRow};
ghost use Rattle.cspf_trees.specs.declared.limits.TheConstants.{OWNER_ROWS};

use crate::limits::OWNER_ROWS;
use cspf_addr::{Addr, Prefix};
use std::alloc::{AllocError, Global};

/// A prefix and the only router that owns it. An empty row keeps neither.
#[derive(Clone, Copy)]
pub(crate) struct OwnerRow {
    /// The generation of owners in which the row was set, or 0 if the row is empty. A new
    /// generation begins each time that all owners are forgotten.
    pub(crate) generation: u64,
    /// The prefix.
    pub(crate) prefix: Prefix,
    /// The only router that owns the prefix.
    pub(crate) router: Addr,
}

/// The rows for prefixes, all of them empty. `prefix` and `router` only fill the fields of the
/// rows, and are never read from them.
pub(crate) fn empty_owners(
    alloc: Global,
    prefix: Prefix,
    router: Addr,
) -> Result<Vec<OwnerRow>, AllocError>
    ensures many { IfOk result (λ rows. length rows.items ≡ OWNER_ROWS) }
    ensures empty { IfOk result (λ rows. All IsEmptyOwnerRow rows.items) }
{
    let mut rows = Vec::with_capacity(alloc, OWNER_ROWS)?;
    for _ in 0..OWNER_ROWS {
        rows.push(OwnerRow {
            generation: 0,
            prefix,
            router,
        })?;
    }
    Ok(rows)
}

/// The index of the only row that may keep the prefix.
pub(crate) fn owner_index(prefix: Prefix) -> usize
    ensures { result < OWNER_ROWS }
{
    let bits = u64::from(prefix.address().number()) ^ (u64::from(prefix.length()) << 32);
    let hash = bits.wrapping_mul(0x9e37_79b9_7f4a_7c15);
    (hash >> 53) as usize % OWNER_ROWS
}

/// The router of the row, if the row was set in this generation for this prefix. A new generation
/// begins each time that all owners are forgotten.
pub(crate) fn owner_in(row: &OwnerRow, generation: u64, prefix: Prefix) -> Option<Addr>
    ensures { (d : Database) → HasOwnerOf d generation row.now
        → IfSome result (IsSoleOwner d prefix) }
{
    if row.generation == generation && row.prefix == prefix {
        Some(row.router)
    } else {
        None
    }
}
