//! Merges changes into the rows (links). Rows and changes are in order of their keys, and the
//! merged rows are written to other vectors.
ghost use Rattle.std.specs.Prelude.{◌≡◌, ◌+◌, ◌-◌, ◌<◌, ◌≤◌, List, true, false, [], ◌∷◌, ◌++◌, All, length, map, slice_index_or, vec_len};
ghost use Rattle.std.specs.Vec.{vec_capacity};
ghost use Rattle.std.specs.List.Sorted.{IsPermutation};
ghost use Rattle.std.specs.List.{HoldsAt, AllWithin};
ghost use Rattle.std.specs.Ordering.{is_lt};
ghost use Rattle.cspf_model.specs.declared.link.Link.{Link as Linked};
ghost use Rattle.cspf_model.specs.declared.batch.Change.{Change as Changed};
ghost use Rattle.cspf_model.specs.Database.{key_of, key_cmp};
ghost use Rattle.cspf_model.specs.Changes.{ChangeKey, change_key_cmp, key_changed};
ghost use Rattle.cspf_model.specs.Lemmas.LinkChanges.{all_relinked};
ghost use Rattle.cspf_model.specs.Refusals.{AreOnceEach};
ghost use Rattle.cspf_model.specs.Lemmas.CountedEnds.{HasListedEnds};
ghost use Rattle.cspf_columns.specs.MergeSteps.{AreMergedBelow, IsMergedUpTo, EndsBelow, AreSortedChanges, IsPlaceOfChange};
ghost use Rattle.cspf_model.specs.Lemmas.RowsLeft.{links_put};
ghost use Rattle.cspf_model.specs.Lemmas.LinkRows.{database_of, AreByKey};
ghost use Rattle.cspf_columns.specs.Rows.{AreRising, AreEndsOf, AreTiedColumns};
ghost use Rattle.cspf_model.specs.declared.limits.TheConstants.{MOST_LINKS};
ghost use Rattle.cspf_columns.specs.declared.limits.TheConstants.{ROOM_FOR_LINKS, ROOM_FOR_ROUTERS};

use crate::columns::Columns;
use crate::insertion::extend_within;
use crate::routers::index_among;
use crate::rows::compare;
use cspf_addr::Addr;
use cspf_model::{Change, Link, MOST_CHANGES};
use std::cmp::Ordering;

/// From index `at` on, the index of the first row (a link) with a key equal to or above the key
/// (`from`, `local`). If there is no such row, the result is the number of rows.
fn step(rows: &[Link], at: usize, from: Addr, local: Addr) -> usize
    requires { at ≤ length rows.now }
    ensures order { at ≤ result }
    ensures bound { result ≤ length rows.now }
    ensures below { AllWithin
        (λ l. key_cmp (key_of l) (from, local) ≡ Ordering.Less) rows.now at result }
    ensures stop { result < length rows.now → (d : Linked)
        → is_lt (key_cmp (key_of (slice_index_or rows.now result d)) (from, local)) ≡ false }
{
    let mut next = at;
    while next < rows.len() && compare(&rows[next], from, local).is_lt() {
        next += 1;
    }
    next
}

/// Whether the row (a link) at the index `next` has the key (`from`, `local`). This row's key isn't
/// below (`from`, `local`).
fn is_at(rows: &[Link], next: usize, from: Addr, local: Addr) -> bool
    requires by_key { AreByKey rows.now }
    requires stop { next < length rows.now → (d : Linked)
        → is_lt (key_cmp (key_of (slice_index_or rows.now next d)) (from, local)) ≡ false }
    ensures within { result ≡ true → next < length rows.now }
    ensures found { result ≡ true → HoldsAt (λ l. key_of l ≡ (from, local)) rows.now next }
    ensures above { result ≡ false → AllWithin
        (λ l. key_cmp (key_of l) (from, local) ≡ Ordering.Greater) rows.now next (length rows.now) }
{
    if next < rows.len() && compare(&rows[next], from, local).is_eq() {
        return true;
    }
    false
}

/// If the change puts a link, appends the link to `merged`, and the index of the router at which it
/// ends to `merged_ends`.
fn put_behind(merged: &mut Vec<Link>, merged_ends: &mut Vec<u16>, routers: &[Addr], change: &Change)
    requires room { vec_len merged.old < vec_capacity merged.old }
    requires room_for_ends { vec_len merged_ends.old < vec_capacity merged_ends.old }
    requires rising { AreRising routers.now }
    requires few { length routers.now ≤ ROOM_FOR_ROUTERS }
    requires known { HasListedEnds routers.now change.now }
    ensures items { merged.new.items ≡ merged.old.items ++ links_put (change.now ∷ []) }
    ensures longer { vec_len merged.new ≤ vec_len merged.old + 1 }
    ensures capacity { vec_capacity merged.old ≤ vec_capacity merged.new }
    ensures capacity_of_ends { vec_capacity merged_ends.old ≤ vec_capacity merged_ends.new }
    ensures ends { AreEndsOf merged.old.items routers.now merged_ends.old.items
        → AreEndsOf merged.new.items routers.now merged_ends.new.items }
{
    if let Change::Put(link) = change {
        merged.push_reserved(*link);
        merged_ends.push_reserved(index_among(routers, link.to));
    }
}

/// Merges one change. From index `at` on, copies the rows (links) with keys below the change's key.
/// Then appends the link that the change puts, if it puts a link. For each appended link, appends
/// to `merged_ends` the index of the router at which the link ends. Returns the index of the next
/// row to be merged.
fn merge_one(
    merged: &mut Vec<Link>,
    merged_ends: &mut Vec<u16>,
    columns: &Columns,
    at: usize,
    change: &Change,
) -> usize
    requires tied { AreTiedColumns columns.now }
    requires merged { AreMergedBelow columns.now.rows.items at merged.old merged_ends.old }
    requires below { EndsBelow merged.old.items (key_changed change.now) }
    requires known { HasListedEnds columns.now.routers.items change.now }
    requires ends_merged { AreEndsOf merged.old.items columns.now.routers.items merged_ends.old.items }
    ensures step { IsMergedUpTo change.now columns.now.rows.items at merged.old merged.new result }
    ensures below { (k : ChangeKey) → change_key_cmp (key_changed change.now) k ≡ Ordering.Less
        → EndsBelow merged.new.items k }
    ensures capacity { vec_capacity merged.old ≤ vec_capacity merged.new }
    ensures capacity_of_ends { vec_capacity merged_ends.old ≤ vec_capacity merged_ends.new }
    ensures ends { AreEndsOf merged.new.items columns.now.routers.items merged_ends.new.items }
{
    let key = change.key();
    let Some(local) = key.1 else {
        return at;
    };
    let from = key.0;
    let next = step(&columns.rows, at, from, local);
    extend_within(merged, &columns.rows[at..next]);
    extend_within(merged_ends, &columns.ends[at..next]);
    put_behind(merged, merged_ends, &columns.routers, change);
    next + usize::from(is_at(&columns.rows, next, from, local))
}

/// Merges changes, which are in order of their keys, into the rows (links) and the column of ends.
/// For each row, a column of ends has the index of the router at which the link ends.
pub(crate) fn merge(
    merged: &mut Vec<Link>,
    merged_ends: &mut Vec<u16>,
    columns: &Columns,
    changes: &[Change],
)
    requires tied { AreTiedColumns columns.now }
    requires most { length columns.now.rows.items ≤ MOST_LINKS }
    requires short { length changes.now ≤ MOST_CHANGES }
    requires in_order { AreSortedChanges changes.now }
    requires empty { merged.old.items ≡ [] }
    requires empty_ends { merged_ends.old.items ≡ [] }
    requires room { ROOM_FOR_LINKS ≤ vec_capacity merged.old }
    requires room_for_ends { ROOM_FOR_LINKS ≤ vec_capacity merged_ends.old }
    requires known { All (HasListedEnds columns.now.routers.items) changes.now }
    ensures changed { database_of merged.new.items
        ≡ all_relinked (database_of columns.now.rows.items) changes.now }
    ensures by_key { AreByKey merged.new.items }
    ensures capacity { vec_capacity merged.old ≤ vec_capacity merged.new }
    ensures capacity_of_ends { vec_capacity merged_ends.old ≤ vec_capacity merged_ends.new }
    ensures ends { AreEndsOf merged.new.items columns.now.routers.items merged_ends.new.items }
{
    let mut at = 0;
    for change in changes {
        at = merge_one(merged, merged_ends, columns, at, change);
    }
    extend_within(merged, &columns.rows[at..]);
    extend_within(merged_ends, &columns.ends[at..]);
}

/// Lists the key of each change together with the change's index. The vector `order` has capacity
/// for all these pairs, so the call allocates no memory.
fn list_order(order: &mut Vec<((Addr, Option<Addr>), u16)>, changes: &[Change])
    requires short { length changes.now ≤ MOST_CHANGES }
    requires room { length changes.now ≤ vec_capacity order.old }
    ensures places { All (IsPlaceOfChange changes.now) order.new.items }
    ensures each { (d : Changed)
        → map (λ place. slice_index_or changes.now place.1 d) order.new.items ≡ changes.now }
    ensures len { vec_len order.new ≡ length changes.now }
    ensures capacity { vec_capacity order.old ≤ vec_capacity order.new }
{
    order.clear();
    for (at, change) in changes.iter().enumerate() {
        order.push_reserved((change.key(), at as u16));
    }
}

/// Copies the changes in the order of the indexes in `order`.
fn copy_changes(sorted: &mut Vec<Change>, order: &[((Addr, Option<Addr>), u16)], changes: &[Change])
    requires places { All (IsPlaceOfChange changes.now) order.now }
    requires room { length order.now ≤ vec_capacity sorted.old }
    ensures each { (d : Changed)
        → sorted.new.items ≡ map (λ place. slice_index_or changes.now place.1 d) order.now }
    ensures capacity { vec_capacity sorted.old ≤ vec_capacity sorted.new }
{
    sorted.clear();
    for place in order {
        sorted.push_reserved(changes[place.1 as usize]);
    }
}

/// Copies changes with distinct keys to `sorted`, in order of their keys. Only keys and indexes are
/// sorted, so each change is copied once. The call allocates no memory.
pub(crate) fn sort_changes(
    order: &mut Vec<((Addr, Option<Addr>), u16)>,
    sorted: &mut Vec<Change>,
    changes: &[Change],
)
    requires short { length changes.now ≤ MOST_CHANGES }
    requires once { AreOnceEach changes.now }
    requires room { length changes.now ≤ vec_capacity sorted.old }
    requires room_for_order { length changes.now ≤ vec_capacity order.old }
    ensures permutation { IsPermutation changes.now sorted.new.items }
    ensures in_order { AreSortedChanges sorted.new.items }
    ensures capacity { vec_capacity sorted.old ≤ vec_capacity sorted.new }
    ensures capacity_of_order { vec_capacity order.old ≤ vec_capacity order.new }
{
    list_order(order, changes);
    order.sort_unstable();
    copy_changes(sorted, order, changes);
}
