//! The marks of a table, in increasing order, and how changes affect the marks. A mark says that a
//! router has no transit.
ghost use Rattle.std.specs.Prelude.{◌≡◌, ◌+◌, ◌<◌, ◌≤◌, ◌↔◌, IsTrue, length, vec_len};
ghost use Rattle.std.specs.Vec.{vec_capacity};
ghost use Rattle.std.specs.FinSet as set;
ghost use Rattle.cspf_model.specs.Changes.{marks_after};
ghost use Rattle.cspf_model.specs.Refusals.{AreOnceEach};
ghost use Rattle.cspf_model.specs.Lemmas.MarkChanges.{all_marked, adds_mark, removes_mark};
ghost use Rattle.cspf_model.specs.Lemmas.LinkRows.{marks_in};
ghost use Rattle.cspf_columns.specs.Rows.{AreRising};
ghost use Rattle.cspf_model.specs.declared.limits.TheConstants.{MOST_CHANGES, MOST_MARKS};

use cspf_addr::Addr;
use cspf_columns::insertion::insert_within;
use cspf_columns::routers::search;
use cspf_model::{Change, MOST_MARKS};

/// Whether the router is marked as without transit.
pub(super) fn is_marked(marks: &[Addr], router: Addr) -> bool
    requires { AreRising marks.now }
    ensures { result ≡ set.contains (marks_in marks.now) router }
{
    search(marks, router).is_ok()
}

/// Whether the change marks a router that isn't marked yet. A mark says that a router has no
/// transit.
fn adds_mark(marks: &[Addr], change: &Change) -> bool
    requires { AreRising marks.now }
    ensures { result ≡ adds_mark (marks_in marks.now) change.now }
{
    match change {
        Change::Node { router, transit } => !*transit && !is_marked(marks, *router),
        _ => false,
    }
}

/// Whether the change removes the mark of a marked router. A mark says that a router has no
/// transit.
fn removes_mark(marks: &[Addr], change: &Change) -> bool
    requires { AreRising marks.now }
    ensures { result ≡ removes_mark (marks_in marks.now) change.now }
{
    match change {
        Change::Node { router, transit } => *transit && is_marked(marks, *router),
        _ => false,
    }
}

/// Whether the changes would leave more than 1,024 marks. A mark says that a router has no transit.
pub(super) fn has_too_many_marks(marks: &[Addr], changes: &[Change]) -> bool
    requires rising { AreRising marks.now }
    requires most { length marks.now ≤ MOST_MARKS }
    requires short { length changes.now ≤ MOST_CHANGES }
    requires once { AreOnceEach changes.now }
    ensures { IsTrue result ↔ MOST_MARKS < set.len (all_marked (marks_in marks.now) changes.now) }
{
    let added = changes
        .iter()
        .filter(|change| adds_mark(marks, change))
        .count();
    let removed = changes
        .iter()
        .filter(|change| removes_mark(marks, change))
        .count();
    let after = marks.len() + added - removed;
    after > MOST_MARKS
}

/// If `transit` is true, removes the router's mark, if there is one. Otherwise marks the router as
/// without transit. The vector has capacity for another mark, so the call allocates no memory.
fn set_mark(marks: &mut Vec<Addr>, router: Addr, transit: bool)
    requires rising { AreRising marks.old.items }
    requires room { vec_len marks.old < vec_capacity marks.old }
    ensures marked { marks_in marks.new.items ≡ marks_after (marks_in marks.old.items) router transit }
    ensures rising { AreRising marks.new.items }
    ensures longer { vec_len marks.new ≤ vec_len marks.old + 1 }
    ensures capacity { vec_capacity marks.old ≤ vec_capacity marks.new }
{
    match search(marks, router) {
        Ok(at) => {
            if transit {
                let _ = marks.remove(at);
            }
        }
        Err(at) => {
            if !transit {
                insert_within(marks, at, router);
            }
        }
    }
}

/// Makes the changes of routers' transit, and ignores all other changes. The vector has capacity
/// for all new marks, so the call allocates no memory. A mark says that a router has no transit.
pub(super) fn change_marks(marks: &mut Vec<Addr>, changes: &[Change])
    requires rising { AreRising marks.old.items }
    requires room { vec_len marks.old + length changes.now ≤ vec_capacity marks.old }
    ensures marked { marks_in marks.new.items ≡ all_marked (marks_in marks.old.items) changes.now }
    ensures rising { AreRising marks.new.items }
    ensures capacity { vec_capacity marks.old ≤ vec_capacity marks.new }
{
    for change in changes {
        if let Change::Node { router, transit } = change {
            set_mark(marks, *router, *transit);
        }
    }
}
