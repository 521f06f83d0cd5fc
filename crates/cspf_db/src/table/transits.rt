//! The column that says, for each router, whether the router has transit.
ghost use Rattle.std.specs.Prelude.{◌≡◌, ℕ, ◌<◌, ◌≤◌, length, not, slice_index};
ghost use Rattle.std.specs.Vec.{vec_capacity};
ghost use Rattle.std.specs.FinSet as set;
ghost use Rattle.cspf_model.specs.Lemmas.LinkRows.{marks_in};
ghost use Rattle.cspf_columns.specs.Rows.{AreRising};
ghost use Rattle.cspf_db.specs.Tables.Parts.{AreTransitsOf};
ghost use Rattle.cspf_model.specs.declared.limits.TheConstants.{MOST_ROUTERS};

use cspf_addr::Addr;

/// From the index `first` on, the index of the first mark that isn't below the router. If there is
/// no such mark, the result is the number of marks. A mark is the Router ID of a router without
/// transit.
fn skip_below(marks: &[Addr], first: usize, router: Addr) -> usize
    requires { first ≤ length marks.now }
    ensures bound { result ≤ length marks.now }
    ensures below { (k : ℕ) → first ≤ k → k < result → slice_index marks.now k < router }
    ensures behind { result < length marks.now → router ≤ slice_index marks.now result }
{
    let mut at = first;
    while at < marks.len() && marks[at] < router {
        at += 1;
    }
    at
}

/// Whether the router has transit, because it isn't marked. `at` is the index of the first mark
/// that isn't below the router. A mark is the Router ID of a router without transit.
fn is_unmarked_at(marks: &[Addr], at: usize, router: Addr) -> bool
    requires rising { AreRising marks.now }
    requires below { (k : ℕ) → k < at → slice_index marks.now k < router }
    requires behind { at < length marks.now → router ≤ slice_index marks.now at }
    ensures { result ≡ not (set.contains (marks_in marks.now) router) }
{
    at >= marks.len() || marks[at] != router
}

/// For each router, lists whether the router has transit. The call reads the routers and the marks
/// once.
pub(crate) fn list_transits(transits: &mut Vec<bool>, routers: &[Addr], marks: &[Addr])
    requires routers { AreRising routers.now }
    requires marks { AreRising marks.now }
    requires few { length routers.now ≤ MOST_ROUTERS }
    requires room { MOST_ROUTERS ≤ vec_capacity transits.old }
    ensures each { AreTransitsOf routers.now marks.now transits.new.items }
    ensures room { MOST_ROUTERS ≤ vec_capacity transits.new }
{
    transits.clear();
    let mut next = 0;
    for router in routers {
        next = skip_below(marks, next, *router);
        transits.push_reserved(is_unmarked_at(marks, next, *router));
    }
}
