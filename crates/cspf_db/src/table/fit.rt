//! Whether a batch fits the table, and the first reason if it doesn't fit.

ghost use Rattle.std.specs.Prelude.{count_by, ◌≡◌, ◌+◌, ◌<◌, ◌≤◌, ◌↔◌, true, length, IfOk, IfErr, IsOkAnd, IsTrue};
ghost use Rattle.cspf_model.specs.Database.{link_count};
ghost use Rattle.cspf_model.specs.Changes.{Fits};
ghost use Rattle.cspf_model.specs.Lemmas.LinkChanges.{all_relinked};
ghost use Rattle.cspf_model.specs.Lemmas.LinkRows.{database_of, marked_database};
ghost use Rattle.cspf_columns.specs.Rows.{AreColumns, AreRising};
ghost use Rattle.cspf_model.specs.Lemmas.RowsLeft.{adds_link};
ghost use Rattle.cspf_db.specs.Tables.Tallies.{IsTallyOf};
ghost use Rattle.cspf_model.specs.Refusals.{AreOnceEach, ArePresent, IsRefusal};
ghost use Rattle.cspf_model.specs.declared.limits.TheConstants.{MOST_MARKS};

mod leaving;
mod repeats;
mod router_count;
mod router_set;
pub(super) mod tally;

use crate::table::marks::has_too_many_marks;
use cspf_addr::Addr;
use cspf_columns::Columns;
use cspf_columns::row_changes::count_removed;
use cspf_model::{Batch, Change, MOST_CHANGES, MOST_LINKS, Refusal};
use repeats::repeat;
use router_count::has_too_many_routers;
use tally::{Tally, tally_all};

/// Whether there are more than 16,384 links after the changes. `added` is the number of changes
/// that add a link.
fn has_too_many_links(columns: &Columns, changes: &[Change], added: usize) -> bool
    requires columns { AreColumns columns.now }
    requires short { length changes.now ≤ MOST_CHANGES }
    requires once { AreOnceEach changes.now }
    requires present { ArePresent (database_of columns.now.rows.items) changes.now }
    requires added { added ≡ count_by (adds_link (database_of columns.now.rows.items)) changes.now }
    ensures { IsTrue result
        ↔ MOST_LINKS < link_count (all_relinked (database_of columns.now.rows.items) changes.now) }
{
    let after = columns.rows.len() + added - count_removed(changes);
    after > MOST_LINKS
}

/// Whether there is a tally, and the tally says that no two changes have the same key. A tally is a
/// summary of what changes do to the links and the routers.
fn tells_apart(tally: &Result<Tally, usize>) -> bool
    ensures { result ≡ true → IsOkAnd tally.now (λ tally. tally.apart ≡ true) }
{
    match tally {
        Ok(tally) => tally.apart,
        Err(_) => false,
    }
}

/// Checks whether the batch fits the rows (links) and the marks. If the batch fits, returns a
/// tally: a summary of what the changes do to the rows and the routers. Otherwise returns the first
/// reason why the batch doesn't fit. A mark says that a router has no transit.
pub(super) fn fits(columns: &Columns, marks: &[Addr], batch: &Batch) -> Result<Tally, Refusal>
    requires columns { AreColumns columns.now }
    requires rising { AreRising marks.now }
    requires few_marks { length marks.now ≤ MOST_MARKS }
    ensures ok { IfOk result (λ _. Fits (marked_database columns.now.rows.items marks.now) batch.now) }
    ensures err { IfErr result
        (λ refusal. IsRefusal (marked_database columns.now.rows.items marks.now) batch.now refusal) }
    ensures tally { IfOk result (IsTallyOf columns.now batch.now.changes) }
{
    let changes = batch.changes.as_slice();
    if changes.len() > MOST_CHANGES {
        return Err(Refusal::TooLong);
    }
    let tally = tally_all(columns, changes);
    if let Some(at) = repeat(changes, tells_apart(&tally)) {
        return Err(Refusal::Duplicate { at: at + 1 });
    }
    match tally {
        Err(at) => Err(Refusal::Absent { at: at + 1 }),
        Ok(tally) => {
            if has_too_many_links(columns, changes, tally.added) {
                return Err(Refusal::Full);
            }
            if has_too_many_routers(columns, changes, tally.brought) {
                return Err(Refusal::TooManyRouters);
            }
            if has_too_many_marks(marks, changes) {
                return Err(Refusal::TooManyMarks);
            }
            Ok(tally)
        }
    }
}
