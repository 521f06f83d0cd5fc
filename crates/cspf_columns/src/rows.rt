//! The rows of a table, which are its links in order of their keys, and searches for a row.

ghost use Rattle.std.specs.Prelude.{◌≡◌, ◌≢◌, ℕ, ◌<◌, ◌≤◌, true, false, All, filter, length, nat_eq, slice_range, IfOk, IfErr, IfSome, IfNone};
ghost use Rattle.std.specs.List.{HoldsAt};
ghost use Rattle.std.specs.List.Sorted.{IsPartitionPoint};
ghost use Rattle.cspf_addr.specs.Prefixes.{Covers};
ghost use Rattle.cspf_model.specs.Database.{key_of, key_cmp};
ghost use Rattle.cspf_columns.specs.Index.{links_from};
ghost use Rattle.cspf_model.specs.Lemmas.LinkRows.{database_of, AreByKey};
ghost use Rattle.cspf_columns.specs.Rows.{HasSameEnds};
ghost use Rattle.cspf_model.specs.Lemmas.CountedEnds.{any_from};

use cspf_addr::{Addr, Prefix};
use cspf_model::Link;
use std::cmp::Ordering;

/// Compares the key of the row (a link) with the key (`from`, `local`).
pub(crate) fn compare(row: &Link, from: Addr, local: Addr) -> Ordering
    ensures { result ≡ key_cmp (key_of row.now) (from, local) }
{
    row.from.cmp(&from).then(row.local.cmp(&local))
}

/// The index of the row (a link) with the key (`from`, `local`). If no row has this key, the error
/// is the index at which such a row would be inserted.
pub(crate) fn search(rows: &[Link], from: Addr, local: Addr) -> Result<usize, usize>
    requires { AreByKey rows.now }
    ensures within { IfOk result (λ at. at < length rows.now) }
    ensures found { IfOk result (HoldsAt (λ l. key_of l ≡ (from, local)) rows.now) }
    ensures upto { IfErr result (λ at. at ≤ length rows.now) }
    ensures gap { IfErr result (IsPartitionPoint
        (λ l. key_cmp (key_of l) (from, local) ≡ Ordering.Less)
        (λ l. key_cmp (key_of l) (from, local) ≡ Ordering.Greater)
        rows.now) }
{
    rows.binary_search_by(
        |row: &Link| -> Ordering
            ensures { result ≡ key_cmp (key_of row.now) (from, local) }
        { compare(row, from, local) },
    )
}

/// The index of the row (a link) with the key (`from`, `local`), or `None` if no row has this key.
pub fn index_of(rows: &[Link], from: Addr, local: Addr) -> Option<usize>
    requires { AreByKey rows.now }
    ensures bound { IfSome result (λ at. at < length rows.now) }
    ensures some { IfSome result (λ at. HoldsAt (λ l. key_of l ≡ (from, local)) rows.now at) }
    ensures none { IfNone result (All (λ l. key_of l ≢ (from, local)) rows.now) }
{
    search(rows, from, local).ok()
}

/// Whether the row (a link) at the index `at` joins the same two interfaces as the link. The row
/// and the link have the same key.
pub fn is_alike(rows: &[Link], at: usize, link: &Link) -> bool
    requires within { at < length rows.now }
    requires key { HoldsAt (λ l. key_of l ≡ key_of link.now) rows.now at }
    ensures { result ≡ true → HoldsAt (λ l. HasSameEnds l link.now) rows.now at }
{
    rows[at].to == link.to && rows[at].remote == link.remote
}

/// The range of the rows (links) that begin at the router: the index of the first row, and one more
/// than the index of the last row.
pub fn span(rows: &[Link], router: Addr) -> (usize, usize)
    requires { AreByKey rows.now }
    ensures order { result.0 ≤ result.1 }
    ensures bound { result.1 ≤ length rows.now }
    ensures rows { slice_range rows.now result.0 result.1
        ≡ filter (λ l. nat_eq l.from router) rows.now }
{
    let first = rows.partition_point(|row| row.from < router);
    let end = rows.partition_point(|row| row.from <= router);
    (first, end)
}

/// The rows (links) that begin at the router, in order of their keys.
pub fn rows_from(rows: &[Link], router: Addr) -> &[Link]
    requires { AreByKey rows.now }
    ensures { result.now ≡ links_from (database_of rows.now) router }
{
    let (first, end) = span(rows, router);
    &rows[first..end]
}

/// Whether a row (a link) begins at the router.
pub(crate) fn begins(rows: &[Link], router: Addr) -> bool
    requires { AreByKey rows.now }
    ensures { result ≡ any_from rows.now router }
{
    let (first, end) = span(rows, router);
    first < end
}

/// Whether the local address of some row (a link) is in the prefix.
pub fn any_within(rows: &[Link], prefix: Prefix) -> bool
    ensures yes { result ≡ true
        → (at : ℕ) × (at < length rows.now) × HoldsAt (λ l. Covers prefix l.local) rows.now at }
    ensures no { result ≡ false → All (λ l. ¬ Covers prefix l.local) rows.now }
{
    rows.iter().any(|link| prefix.covers(link.local))
}
