//! Keeps, for many prefixes, the router that is the only owner of the prefix in one database.

ghost use Rattle.std.specs.Prelude.{◌<◌, ◌≤◌, All, IfOk, IfSome};
ghost use Rattle.cspf_trees.specs.LegsInTurn.{IsSoleOwner};

use crate::limits::OWNER_ROWS;
use crate::owner_row::{OwnerRow, empty_owners, owner_in, owner_index};
use cspf_addr::{Addr, Prefix};
use cspf_db::Table;
use cspf_model::MOST_ROUTERS;
use std::alloc::{AllocError, Global};

/// Prefixes of earlier hops, each with the only router that owns it in one database. Each row keeps
/// the last prefix that was put into it.
#[derive(Drop)]
pub(crate) struct Owners {
    /// The rows: either none or `OWNER_ROWS` rows. Each row keeps at most one prefix with its only
    /// owner.
    rows: Vec<OwnerRow>,
    /// The present generation of owners, which is at least 1. A new generation begins each time
    /// that all owners are forgotten. A row of an earlier generation counts as empty.
    generation: u64,
    /// Whether rows may be allocated, so that owners can be kept.
    keeps: bool,
    ghost begun: { 0 < generation },
    ghost past: { All (λ row. row.generation ≤ generation) rows.items },
}

/// The only router that owns a prefix, found by checking each router. The result is `None` if no
/// router owns the prefix, or more than one.
fn read_owner(alloc: Global, table: &Table, prefix: Prefix) -> Result<Option<Addr>, AllocError>
    ensures { IfOk result (λ found. IfSome found (IsSoleOwner table.now prefix)) }
{
    let mut owners = Vec::with_capacity(alloc, MOST_ROUTERS)?;
    table.list_owners(&mut owners, prefix);
    match owners.as_slice() {
        [at] => Ok(Some(table.routers()[usize::from(*at)])),
        _ => Ok(None),
    }
}

impl Owners {
    ghost use Rattle.std.specs.Prelude.{◌≡◌, true, length};
    ghost use Rattle.cspf_model.specs.Database.{Database};
    ghost use Rattle.cspf_trees.specs.Owners.{AreOwnersOf};
    ghost use Rattle.cspf_trees.specs.declared.limits.TheConstants.{OWNER_ROWS};

    /// An empty set of owners, which can be used with any database. If `keeps` is true, owners that
    /// are found later are kept. The call allocates no memory.
    pub(crate) fn new(alloc: Global, keeps: bool) -> Owners
        ensures { (d : Database) → AreOwnersOf d result }
    {
        Owners {
            rows: Vec::new(alloc),
            generation: 1,
            keeps,
        }
    }

    /// Forgets all owners, so that the set can be used with any database. The memory of the rows
    /// stays allocated for later owners.
    pub(crate) fn clear(&mut self)
        ensures { (d : Database) → AreOwnersOf d self.new }
    {
        if self.generation < u64::MAX {
            self.generation += 1;
        } else {
            self.rows.clear();
        }
    }

    /// Allocates the rows, if there are none yet and owners may be kept. Returns whether there are
    /// rows. The new rows are empty: `prefix` and `router` only fill their fields.
    fn fill(&mut self, alloc: Global, prefix: Prefix, router: Addr) -> bool
        ensures owners { (d : Database) → AreOwnersOf d self.old → AreOwnersOf d self.new }
        ensures many { result ≡ true → length self.new.rows.items ≡ OWNER_ROWS }
    {
        if self.rows.len() == OWNER_ROWS {
            return true;
        }
        if !self.keeps {
            return false;
        }
        match empty_owners(alloc, prefix, router) {
            Ok(rows) => {
                self.rows = rows;
                true
            }
            Err(_refused) => false,
        }
    }

    /// Keeps the router as the only owner of the prefix, if there are rows, or rows can be
    /// allocated.
    fn keep(&mut self, alloc: Global, prefix: Prefix, router: Addr)
        ensures { (d : Database) → IsSoleOwner d prefix router
            → AreOwnersOf d self.old → AreOwnersOf d self.new }
    {
        if self.fill(alloc, prefix, router) {
            let generation = self.generation;
            self.rows[owner_index(prefix)] = OwnerRow {
                generation,
                prefix,
                router,
            };
        }
    }

    /// The only owner of the prefix, if it is kept. Otherwise the result is `None`.
    fn kept(&self, prefix: Prefix) -> Option<Addr>
        ensures { (d : Database) → AreOwnersOf d self.now
            → IfSome result (IsSoleOwner d prefix) }
    {
        if self.rows.len() < OWNER_ROWS {
            return None;
        }
        owner_in(&self.rows[owner_index(prefix)], self.generation, prefix)
    }

    /// The only owner of a prefix. The result is `None` if no router owns the prefix, or more than
    /// one. If the owner isn't kept yet, it is found by checking each router, and then kept.
    pub(crate) fn sole_owner(
        &mut self,
        alloc: Global,
        table: &Table,
        prefix: Prefix,
    ) -> Result<Option<Addr>, AllocError>
        requires { AreOwnersOf table.now self.old }
        ensures owners { AreOwnersOf table.now self.new }
        ensures sole { IfOk result (λ found. IfSome found (IsSoleOwner table.now prefix)) }
    {
        if let Some(router) = self.kept(prefix) {
            return Ok(Some(router));
        }
        let Some(router) = read_owner(alloc, table, prefix)? else {
            return Ok(None);
        };
        self.keep(alloc, prefix, router);
        Ok(Some(router))
    }
}
