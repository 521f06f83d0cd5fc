//! Whether a router leaves with the changes of a batch: some link begins or ends at the router
//! before the changes, and none after the changes.
ghost use Rattle.std.specs.Prelude.{◌≡◌, ℕ, ◌<◌, ◌&&◌, true, false, filter, length, nat_eq, slice_index, slice_index_or};
ghost use Rattle.std.specs.List.{list_any};
ghost use Rattle.cspf_model.specs.declared.link.Link.{Link as Linked};
ghost use Rattle.cspf_model.specs.Lemmas.GoneRouters.{HasGone, IsGone};
ghost use Rattle.cspf_model.specs.Lemmas.LinkRows.{AreByKey};
ghost use Rattle.cspf_columns.specs.Rows.{AreColumns};
ghost use Rattle.cspf_model.specs.Lemmas.RowsLeft.{is_untouched};

use crate::table::changes::{any_puts_at, is_untouched};
use cspf_addr::Addr;
use cspf_columns::Columns;
use cspf_columns::routers::search;
use cspf_columns::rows::{index_of, span};
use cspf_model::{Change, Link};

/// Whether some row (a link) is affected by no change.
fn any_untouched(rows: &[Link], changes: &[Change]) -> bool
    ensures { result ≡ list_any (is_untouched changes.now) rows.now }
{
    rows.iter().any(|row| is_untouched(row, changes))
}

/// Whether some row (a link) that begins at the router is affected by no change.
fn any_left_from(rows: &[Link], changes: &[Change], router: Addr) -> bool
    requires { AreByKey rows.now }
    ensures { result
        ≡ list_any (is_untouched changes.now) (filter (λ l. nat_eq l.from router) rows.now) }
{
    let (first, end) = span(rows, router);
    any_untouched(&rows[first..end], changes)
}

/// Whether no change affects the row (a link), and the row ends at the router with the index
/// `place`. `end` is the index of the router at which the row ends.
fn is_left_to(row: &Link, end: u16, changes: &[Change], place: usize) -> bool
    ensures { result ≡ (nat_eq end place && is_untouched changes.now row.now) }
{
    usize::from(end) == place && is_untouched(row, changes)
}

/// Whether some row (a link) that ends at the router with the index `place` is affected by no
/// change.
fn any_left_to(rows: &[Link], ends: &[u16], changes: &[Change], place: usize) -> bool
    requires { length ends.now ≡ length rows.now }
    ensures { result ≡ false → (at : ℕ) (d : Linked) → at < length rows.now
        → (nat_eq (slice_index ends.now at) place
        && is_untouched changes.now (slice_index_or rows.now at d)) ≡ false }
{
    for (at, row) in rows.iter().enumerate() {
        if is_left_to(row, ends[at], changes, place) {
            return true;
        }
    }
    false
}

/// Whether no link begins or ends at the router with the index `place` after the changes.
fn is_gone(columns: &Columns, changes: &[Change], place: usize) -> bool
    requires columns { AreColumns columns.now }
    requires within { place < length columns.now.routers.items }
    ensures { result ≡ true → IsGone columns.now.rows.items changes.now (slice_index columns.now.routers.items place) }
{
    let router = columns.routers[place];
    if any_puts_at(changes, router) || any_left_from(&columns.rows, changes, router) {
        return false;
    }
    !any_left_to(&columns.rows, &columns.ends, changes, place)
}

/// Whether the change affects a row (a link), and one of the row's two routers has no links after
/// all changes.
fn takes_one(columns: &Columns, changes: &[Change], change: &Change) -> bool
    requires columns { AreColumns columns.now }
    ensures { result ≡ true → HasGone columns.now.rows.items columns.now.routers.items changes.now }
{
    let (from, Some(local)) = change.key() else {
        return false;
    };
    let (Some(at), Ok(place)) = (
        index_of(&columns.rows, from, local),
        search(&columns.routers, from),
    ) else {
        return false;
    };
    is_gone(columns, changes, place) || is_gone(columns, changes, usize::from(columns.ends[at]))
}

/// Whether some router of the database has no links after the changes. The call checks only the
/// routers of rows (links) that a change affects.
pub(super) fn any_goes(columns: &Columns, changes: &[Change]) -> bool
    requires columns { AreColumns columns.now }
    ensures { result ≡ true → HasGone columns.now.rows.items columns.now.routers.items changes.now }
{
    for change in changes {
        if takes_one(columns, changes, change) {
            return true;
        }
    }
    false
}
