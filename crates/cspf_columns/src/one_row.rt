//! Replaces, inserts or removes one row (a link), and adapts the columns of ends and reverses. For
//! each row, a column of ends has the index of the router at which the link ends.
ghost use Rattle.std.specs.Prelude.{◌≡◌, ℕ, ◌<◌, ◌≤◌, length};
ghost use Rattle.std.specs.List.{HoldsAt};
ghost use Rattle.std.specs.List.Sorted.{IsPartitionPoint};
ghost use Rattle.cspf_model.specs.Database.{key_of, key_cmp};
ghost use Rattle.cspf_model.specs.Lemmas.CountedEnds.{HasListedEnds};
ghost use Rattle.cspf_columns.specs.Rows.{ArePaired, IsOneChange};
ghost use Rattle.cspf_columns.specs.declared.limits.TheConstants.{ROOM_FOR_LINKS};

use crate::columns::Columns;
use crate::insertion::insert_within;
use crate::reverses::{close_gap, open_gap, pair, unpair};
use crate::routers::index_among;
use crate::rows::is_alike;
use cspf_model::{Change, Link};
use std::cmp::Ordering;

/// Replaces the row (a link) at the index `at` by a link with the same key.
pub(crate) fn replace_at(columns: &mut Columns, at: usize, link: &Link)
    requires paired { ArePaired columns.old }
    requires room { length columns.old.rows.items ≤ ROOM_FOR_LINKS }
    requires within { at < length columns.old.rows.items }
    requires key { HoldsAt (λ l. key_of l ≡ key_of link.now) columns.old.rows.items at }
    requires known { HasListedEnds columns.old.routers.items (Change.Put link.now) }
    ensures { IsOneChange columns.old columns.new (Change.Put link.now) }
{
    if is_alike(&columns.rows, at, link) {
        columns.rows[at] = *link;
        return;
    }
    unpair(columns, at);
    columns.rows[at] = *link;
    columns.ends[at] = index_among(&columns.routers, link.to);
    pair(columns, at);
}

/// Inserts the link at the index `at`, between the rows (links) with lower keys and the rows with
/// higher keys.
pub(crate) fn insert_at(columns: &mut Columns, at: usize, link: &Link)
    requires paired { ArePaired columns.old }
    requires room { length columns.old.rows.items < ROOM_FOR_LINKS }
    requires upto { at ≤ length columns.old.rows.items }
    requires gap { IsPartitionPoint
        (λ l. key_cmp (key_of l) (key_of link.now) ≡ Ordering.Less)
        (λ l. key_cmp (key_of l) (key_of link.now) ≡ Ordering.Greater)
        columns.old.rows.items at }
    requires known { HasListedEnds columns.old.routers.items (Change.Put link.now) }
    ensures { IsOneChange columns.old columns.new (Change.Put link.now) }
{
    let end = index_among(&columns.routers, link.to);
    insert_within(&mut columns.rows, at, *link);
    insert_within(&mut columns.ends, at, end);
    open_gap(&mut columns.reverses, at);
    pair(columns, at);
}

/// Removes the row (a link) at the index `at`.
pub(crate) fn remove_at(columns: &mut Columns, at: usize)
    requires paired { ArePaired columns.old }
    requires room { length columns.old.rows.items ≤ ROOM_FOR_LINKS }
    requires within { at < length columns.old.rows.items }
    ensures { (from local : ℕ) → HoldsAt (λ l. key_of l ≡ (from, local)) columns.old.rows.items at
        → IsOneChange columns.old columns.new (Change.Remove from local) }
{
    unpair(columns, at);
    let _ = columns.rows.remove(at);
    let _ = columns.ends.remove(at);
    close_gap(&mut columns.reverses, at);
}
