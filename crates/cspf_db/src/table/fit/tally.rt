//! What the changes of a batch do to the rows (links) and to the number of routers. For each
//! change, a tally takes at most one search of the rows and two searches of the routers.
ghost use Rattle.std.specs.Prelude.{◌≡◌, ℕ, ◌*◌, ◌<◌, ◌≤◌, ◌⊎◌, cond, true, [], ◌∷◌, Contains, length, IfOk, IfErr, IfSome, IfNone, IsSomeAnd};
ghost use Rattle.std.specs.List.{list_any};
ghost use Rattle.cspf_model.specs.Changes.{IsPresent};
ghost use Rattle.cspf_columns.specs.AlikeChanges.{IsAlike};
ghost use Rattle.cspf_model.specs.Lemmas.CountedEnds.{HasListedEnds, BringsAtMost, BringsBeside};
ghost use Rattle.cspf_model.specs.Lemmas.GoneRouters.{puts_at};
ghost use Rattle.cspf_model.specs.Refusals.{RemovesNothing};
ghost use Rattle.cspf_model.specs.Lemmas.LinkRows.{database_of, AreByKey};
ghost use Rattle.cspf_columns.specs.Rows.{AreColumns, AreRising};
ghost use Rattle.cspf_db.specs.Tables.Tallies.{IsRowOf, IsSeenAt, IsTallyOf, IsFirstAbsent};
ghost use Rattle.cspf_model.specs.Lemmas.RowsLeft.{adds_link};
ghost use Rattle.cspf_model.specs.declared.limits.TheConstants.{MOST_CHANGES};

use crate::table::changes::any_puts_at;
use crate::table::fit::repeats::FEW;
use cspf_addr::Addr;
use cspf_columns::Columns;
use cspf_columns::routers::is_among;
use cspf_columns::rows::{index_of, is_alike};
use cspf_model::{Change, Link, MOST_LINKS};

/// A summary of what some changes do to the rows (links) and the routers.
#[derive(Clone, Copy, Debug)]
pub struct Tally {
    /// The number of changes that put a link at a key at which there is no link.
    pub added: usize,
    /// The number of new routers: routers that aren't in the table, and at which a link that the
    /// changes put begins or ends. A new router of several links is counted for each of these
    /// links.
    pub brought: usize,
    /// Whether each change replaces a link by a link that joins the same two interfaces.
    pub alike: bool,
    /// If true, each change affects a row (a link), and no two changes affect the same row. If
    /// false, this may still be so: `tally_all` checks it only for more than `FEW` changes.
    pub apart: bool,
}

/// The index of the row (a link) with the change's key, or `None` if no row has this key.
fn row_of(rows: &[Link], change: &Change) -> Option<usize>
    requires { AreByKey rows.now }
    ensures { IsRowOf rows.now change.now result }
{
    let key = change.key();
    let Some(local) = key.1 else {
        return None;
    };
    index_of(rows, key.0, local)
}

/// 1 if the router is new, that is, not in the list `routers`, and otherwise 0.
fn count_new(routers: &[Addr], router: Addr) -> usize
    requires { AreRising routers.now }
    ensures few { result ≤ 1 }
    ensures none { result ≡ 0 → Contains routers.now router }
{
    if is_among(routers, router) { 0 } else { 1 }
}

/// 1 if the router at which the link ends isn't a router of the table, and otherwise 0. If the row
/// (a link) at the index `at` ends at the same router, no search is needed.
fn count_new_end(columns: &Columns, at: usize, link: &Link) -> usize
    requires columns { AreColumns columns.now }
    requires bound { at < length columns.now.rows.items }
    ensures few { result ≤ 1 }
    ensures none { result ≡ 0 → Contains columns.now.routers.items link.now.to }
{
    if columns.rows[at].to == link.to {
        0
    } else {
        count_new(&columns.routers, link.to)
    }
}

/// The tally of a change that puts `link`. `row` is the index of the row (a link) with the link's
/// key, if there is such a row.
fn tally_put(columns: &Columns, link: &Link, row: Option<usize>) -> Tally
    requires columns { AreColumns columns.now }
    requires row { IsRowOf columns.now.rows.items (Change.Put link.now) row }
    ensures added { result.added
        ≡ cond (adds_link (database_of columns.now.rows.items) (Change.Put link.now)) 1 0 }
    ensures one { result.added ≤ 1 }
    ensures few { result.brought ≤ 2 }
    ensures most { BringsAtMost columns.now.routers.items (Change.Put link.now ∷ []) result.brought }
    ensures listed { result.brought ≡ 0 → HasListedEnds columns.now.routers.items (Change.Put link.now) }
    ensures alike { result.alike ≡ true → IsAlike columns.now.rows.items (Change.Put link.now) }
{
    match row {
        Some(at) => Tally {
            added: 0,
            brought: count_new_end(columns, at, link),
            alike: is_alike(&columns.rows, at, link),
            apart: true,
        },
        None => Tally {
            added: 1,
            brought: count_new(&columns.routers, link.from) + count_new(&columns.routers, link.to),
            alike: false,
            apart: false,
        },
    }
}

/// The tally of one change, or `None` if the change removes a link that the table doesn't have.
/// `row` is the index of the row (a link) with the change's key, if there is such a row.
fn tally_one(columns: &Columns, change: &Change, row: Option<usize>) -> Option<Tally>
    requires columns { AreColumns columns.now }
    requires row { IsRowOf columns.now.rows.items change.now row }
    ensures absent { IfNone result (RemovesNothing (database_of columns.now.rows.items) change.now) }
    ensures present { IfSome result (λ _. IsPresent (database_of columns.now.rows.items) change.now) }
    ensures added { IfSome result (λ tally. tally.added
        ≡ cond (adds_link (database_of columns.now.rows.items) change.now) 1 0) }
    ensures one { IfSome result (λ tally. tally.added ≤ 1) }
    ensures few { IfSome result (λ tally. tally.brought ≤ 2) }
    ensures most { IfSome result
        (λ tally. BringsAtMost columns.now.routers.items (change.now ∷ []) tally.brought) }
    ensures listed { IfSome result
        (λ tally. tally.brought ≡ 0 → HasListedEnds columns.now.routers.items change.now) }
    ensures alike { IfSome result (λ tally. tally.alike ≡ true → IsAlike columns.now.rows.items change.now) }
{
    match change {
        Change::Put(link) => Some(tally_put(columns, link, row)),
        Change::Remove { .. } => {
            if row.is_none() {
                return None;
            }
            Some(Tally {
                added: 0,
                brought: 0,
                alike: false,
                apart: true,
            })
        }
        Change::Node { .. } => Some(Tally {
            added: 0,
            brought: 0,
            alike: false,
            apart: false,
        }),
    }
}

/// Sets the flag of a row (a link) in `seen`. A set flag says that a change affects the row.
/// Returns false if `row` is `None`, if `seen` has no item for the row, or if the flag was already
/// set.
fn see(seen: &mut [bool], row: Option<usize>) -> bool
    ensures { result ≡ true → IsSomeAnd row (IsSeenAt seen.old seen.new) }
{
    let Some(at) = row else {
        return false;
    };
    if at >= seen.len() || seen[at] {
        return false;
    }
    seen[at] = true;
    true
}

/// The tally of the changes. If a change removes a link that the table doesn't have, the error is
/// the index of the first such change. In `seen`, the call sets the flag of each row (a link) that
/// a change affects.
fn tally_each(columns: &Columns, changes: &[Change], seen: &mut [bool]) -> Result<Tally, usize>
    requires columns { AreColumns columns.now }
    requires short { length changes.now ≤ MOST_CHANGES }
    ensures tally { IfOk result (IsTallyOf columns.now changes.now) }
    ensures absent { IfErr result (IsFirstAbsent (database_of columns.now.rows.items) changes.now) }
{
    let mut added = 0;
    let mut brought = 0;
    let mut alike = true;
    let mut apart = true;
    for (at, change) in changes.iter().enumerate() {
        let row = row_of(&columns.rows, change);
        let Some(one) = tally_one(columns, change, row) else {
            return Err(at);
        };
        added += one.added;
        brought += one.brought;
        alike = alike && one.alike;
        apart = see(seen, row) && apart;
    }
    Ok(Tally {
        added,
        brought,
        alike,
        apart,
    })
}

/// The tally of the changes. If a change removes a link that the table doesn't have, the error is
/// the index of the first such change. The call checks whether two changes affect the same row (a
/// link) only if there are more than `FEW` changes.
pub(super) fn tally_all(columns: &Columns, changes: &[Change]) -> Result<Tally, usize>
    requires columns { AreColumns columns.now }
    requires short { length changes.now ≤ MOST_CHANGES }
    ensures tally { IfOk result (IsTallyOf columns.now changes.now) }
    ensures absent { IfErr result (IsFirstAbsent (database_of columns.now.rows.items) changes.now) }
{
    if changes.len() <= FEW {
        return tally_each(columns, changes, &mut []);
    }
    tally_each(columns, changes, &mut [false; MOST_LINKS])
}

/// 0 if the router is in the list `routers`, or if the changes put a link that begins or ends at
/// it, and otherwise 1.
fn count_first(routers: &[Addr], changes: &[Change], router: Addr) -> usize
    requires { AreRising routers.now }
    ensures few { result ≤ 1 }
    ensures none { result ≡ 0
        → Contains routers.now router ⊎ (list_any (puts_at router) changes.now ≡ true) }
{
    if is_among(routers, router) || any_puts_at(changes, router) {
        0
    } else {
        1
    }
}

/// The number of new routers, 0 to 2, of the link that the change puts. A router isn't new if it is
/// in the list `routers`, or if a change in `others` puts a link that begins or ends at it.
fn count_first_ends(routers: &[Addr], others: &[Change], change: &Change) -> usize
    requires { AreRising routers.now }
    ensures few { result ≤ 2 }
    ensures most { BringsBeside routers.now others.now change.now result }
{
    match change {
        Change::Put(link) => {
            count_first(routers, others, link.from) + count_first(routers, others, link.to)
        }
        _ => 0,
    }
}

/// The number of new routers: routers that aren't in the list `routers`, and at which a link that
/// the changes put begins or ends. Each new router is counted once. The call compares all pairs of
/// changes, so its time is quadratic.
pub(super) fn count_brought(routers: &[Addr], changes: &[Change]) -> usize
    requires rising { AreRising routers.now }
    requires short { length changes.now ≤ MOST_CHANGES }
    ensures few { result ≤ 2 * length changes.now }
    ensures most { BringsAtMost routers.now changes.now result }
{
    let mut brought = 0;
    for (at, change) in changes.iter().enumerate() {
        brought += count_first_ends(routers, &changes[..at], change);
    }
    brought
}
