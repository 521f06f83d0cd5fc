//! Whether there are more than 1,024 routers after the changes of a batch.
ghost use Rattle.std.specs.Prelude.{◌≡◌, ◌+◌, ◌*◌, ◌<◌, ◌≤◌, ◌↔◌, true, All, length, IsTrue};
ghost use Rattle.std.specs.Bool.{OnTrue, OnFalse};
ghost use Rattle.std.specs.FinSet as set;
ghost use Rattle.cspf_model.specs.Database.{router_count};
ghost use Rattle.cspf_model.specs.Lemmas.LinkChanges.{all_relinked};
ghost use Rattle.cspf_model.specs.Lemmas.LinkRows.{database_of};
ghost use Rattle.cspf_columns.specs.Rows.{AreColumns};
ghost use Rattle.cspf_model.specs.Lemmas.RowsLeft.{is_untouched, rows_untouched, links_put};
ghost use Rattle.cspf_model.specs.Lemmas.CountedEnds.{with_ends, BringsAtMost};
ghost use Rattle.cspf_model.specs.Refusals.{AreOnceEach};
ghost use Rattle.cspf_model.specs.declared.limits.TheConstants.{MOST_CHANGES};

use crate::table::changes::is_untouched;
use crate::table::fit::leaving::any_goes;
use crate::table::fit::repeats::FEW;
use crate::table::fit::router_set::Routers;
use crate::table::fit::tally::count_brought;
use cspf_addr::Addr;
use cspf_columns::Columns;
use cspf_model::{Change, Link, MOST_ROUTERS};

/// Adds to the set the two routers of each row (a link) that no change affects. Returns false if
/// the set would have more than 1,024 routers.
fn add_rows(routers: &mut Routers, rows: &[Link], changes: &[Change]) -> bool
    requires { set.len routers.old ≤ MOST_ROUTERS }
    ensures added { OnTrue result
        (routers.new ≡ with_ends routers.old (rows_untouched rows.now changes.now)) }
    ensures few { OnTrue result (set.len routers.new ≤ MOST_ROUTERS) }
    ensures full { OnFalse result
        (MOST_ROUTERS < set.len (with_ends routers.old (rows_untouched rows.now changes.now))) }
{
    for row in rows {
        if routers.has_ends(row) {
            continue;
        }
        if is_untouched(row, changes) && !routers.add_ends(row) {
            return false;
        }
    }
    true
}

/// Adds to the set the two routers of each link that the changes put. Returns false if the set
/// would have more than 1,024 routers.
fn add_puts(routers: &mut Routers, changes: &[Change]) -> bool
    requires { set.len routers.old ≤ MOST_ROUTERS }
    ensures added { OnTrue result (routers.new ≡ with_ends routers.old (links_put changes.now)) }
    ensures few { OnTrue result (set.len routers.new ≤ MOST_ROUTERS) }
    ensures full { OnFalse result (MOST_ROUTERS < set.len (with_ends routers.old (links_put changes.now))) }
{
    for change in changes {
        if let Change::Put(link) = change {
            if !routers.add_ends(link) {
                return false;
            }
        }
    }
    true
}

/// Whether a quick count shows that there are at most 1,024 routers after the changes. The count is
/// the number of routers before the changes plus the number of new routers. The result is true if
/// the count is at most 1,024, or if the count is 1,025 and some router has no links after the
/// changes.
fn fit_by_one(columns: &Columns, changes: &[Change]) -> bool
    requires columns { AreColumns columns.now }
    requires short { length changes.now ≤ MOST_CHANGES }
    requires once { AreOnceEach changes.now }
    ensures { result ≡ true
        → router_count (all_relinked (database_of columns.now.rows.items) changes.now) ≤ MOST_ROUTERS }
{
    let many = columns.routers.len() + count_brought(&columns.routers, changes);
    many <= MOST_ROUTERS || many == MOST_ROUTERS + 1 && any_goes(columns, changes)
}

/// Adds the routers of the list to the set. Returns false if the set would have more than 1,024
/// routers.
fn add_routers(routers: &mut Routers, list: &[Addr]) -> bool
    requires { set.len routers.old ≤ MOST_ROUTERS }
    ensures added { OnTrue result (All (λ r. set.contains routers.new r ≡ true) list.now) }
    ensures few { OnTrue result (set.len routers.new ≤ MOST_ROUTERS) }
{
    for router in list {
        if !routers.add(router.number()) {
            return false;
        }
    }
    true
}

/// Whether there are at most 1,024 routers among these: the routers before the changes, and those
/// at which a link that the changes put begins or ends. If so, there are at most 1,024 routers after
/// the changes. The call looks at each router and at each change once, and at no row (a link).
fn fit_together(columns: &Columns, changes: &[Change]) -> bool
    requires columns { AreColumns columns.now }
    requires short { length changes.now ≤ MOST_CHANGES }
    requires once { AreOnceEach changes.now }
    ensures { result ≡ true
        → router_count (all_relinked (database_of columns.now.rows.items) changes.now) ≤ MOST_ROUTERS }
{
    let mut found = Routers::new();
    add_routers(&mut found, &columns.routers) && add_puts(&mut found, changes)
}

/// Whether a quick count shows that there are at most 1,024 routers after the changes. For at most
/// `FEW` changes, `fit_by_one` makes this count, and for more changes `fit_together`.
fn fit_by_count(columns: &Columns, changes: &[Change]) -> bool
    requires columns { AreColumns columns.now }
    requires short { length changes.now ≤ MOST_CHANGES }
    requires once { AreOnceEach changes.now }
    ensures { result ≡ true
        → router_count (all_relinked (database_of columns.now.rows.items) changes.now) ≤ MOST_ROUTERS }
{
    if changes.len() <= FEW {
        fit_by_one(columns, changes)
    } else {
        fit_together(columns, changes)
    }
}

/// Whether there are more than 1,024 routers after the changes. `brought` is at least the number of
/// new routers. The call first tries one or two quick counts. If they don't show that there are at
/// most 1,024 routers, the call counts the routers of all links.
pub(super) fn has_too_many_routers(columns: &Columns, changes: &[Change], brought: usize) -> bool
    requires columns { AreColumns columns.now }
    requires short { length changes.now ≤ MOST_CHANGES }
    requires once { AreOnceEach changes.now }
    requires few_brought { brought ≤ 2 * length changes.now }
    requires brought { BringsAtMost columns.now.routers.items changes.now brought }
    ensures { IsTrue result
        ↔ MOST_ROUTERS < router_count (all_relinked (database_of columns.now.rows.items) changes.now) }
{
    if columns.routers.len() + brought <= MOST_ROUTERS {
        return false;
    }
    if fit_by_count(columns, changes) {
        return false;
    }
    let mut found = Routers::new();
    !(add_puts(&mut found, changes) && add_rows(&mut found, &columns.rows, changes))
}
