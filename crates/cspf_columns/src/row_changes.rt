//! Makes changes to the rows (links) and to all columns of a table.
ghost use Rattle.std.specs.Prelude.{count_by, ◌≡◌, ◌+◌, ◌<◌, ◌≤◌, true, All, length};
ghost use Rattle.cspf_model.specs.Lemmas.LinkChanges.{all_relinked};
ghost use Rattle.cspf_model.specs.Lemmas.CountedEnds.{HasListedEnds};
ghost use Rattle.cspf_model.specs.Database.{link_count, router_count};
ghost use Rattle.cspf_model.specs.Refusals.{AreOnceEach};
ghost use Rattle.cspf_model.specs.Lemmas.RowsLeft.{adds_link, removes_link};
ghost use Rattle.cspf_model.specs.Lemmas.LinkRows.{database_of};
ghost use Rattle.cspf_columns.specs.Rows.{AreColumns, ArePaired, AreRowParts, AreTiedColumns, IsOneChange};
ghost use Rattle.cspf_columns.specs.Reverses.{AreReversesBut, no_key};
ghost use Rattle.cspf_model.specs.declared.limits.TheConstants.{MOST_CHANGES, MOST_LINKS, MOST_ROUTERS};
ghost use Rattle.cspf_columns.specs.declared.limits.TheConstants.{ROOM_FOR_LINKS};

use crate::columns::Columns;
use crate::one_row::{insert_at, remove_at, replace_at};
use crate::reverses::list_reverses;
use crate::rows::{index_of, search};
use crate::scratch::Scratch;
use crate::spans::list_spans;
use cspf_model::Change;

/// Makes one change to the rows (links), and adapts the columns of ends and reverses. For each row,
/// a column of ends has the index of the router at which the link ends.
fn change_one(columns: &mut Columns, change: &Change)
    requires paired { ArePaired columns.old }
    requires room { length columns.old.rows.items < ROOM_FOR_LINKS }
    requires known { HasListedEnds columns.old.routers.items change.now }
    ensures { IsOneChange columns.old columns.new change.now }
{
    match change {
        Change::Put(link) => match search(&columns.rows, link.from, link.local) {
            Ok(at) => replace_at(columns, at, link),
            Err(at) => insert_at(columns, at, link),
        },
        Change::Remove { from, local } => {
            if let Some(at) = index_of(&columns.rows, *from, *local) {
                remove_at(columns, at);
            }
        }
        Change::Node { .. } => {}
    }
}

/// Makes the changes one after the other. The links that the changes put begin and end at routers
/// in the list of routers.
fn change_rows(columns: &mut Columns, changes: &[Change])
    requires paired { ArePaired columns.old }
    requires room { length columns.old.rows.items + length changes.now ≤ ROOM_FOR_LINKS }
    requires known { All (HasListedEnds columns.old.routers.items) changes.now }
    ensures changed { database_of columns.new.rows.items
        ≡ all_relinked (database_of columns.old.rows.items) changes.now }
    ensures paired { ArePaired columns.new }
{
    for change in changes {
        change_one(columns, change);
    }
}

/// Whether the change removes a link.
fn is_removal(change: &Change) -> bool
    ensures { result ≡ removes_link change.now }
{
    matches!(change, Change::Remove { .. })
}

/// The number of changes that remove a link.
pub fn count_removed(changes: &[Change]) -> usize
    ensures { result ≡ count_by removes_link changes.now }
{
    changes.iter().filter(|change| is_removal(change)).count()
}

/// If changes insert and remove at most this many rows (links) in total, the rows are inserted and
/// removed one by one. Each insertion or removal moves all following rows.
const FEW: usize = 16;

/// Whether the changes insert and remove at most `FEW` rows (links) in total. `added` is the number
/// of changes that add a link.
fn move_few(added: usize, changes: &[Change]) -> bool
    requires few { added ≤ MOST_CHANGES }
    requires short { length changes.now ≤ MOST_CHANGES }
    ensures { result ≡ true → added + count_by removes_link changes.now ≤ FEW }
{
    added + count_removed(changes) <= FEW
}

/// Makes changes with distinct keys to the rows (links) and to the column of ends. Returns whether
/// the call has also adapted the column of reverses. The links that the changes put begin and end
/// at routers in the list of routers. For each row, a column of ends has the index of the router at
/// which the link ends. A column of reverses has the index of the row's reverse, or `NO_LINK`.
fn change_with_ends(
    columns: &mut Columns,
    scratch: &mut Scratch,
    changes: &[Change],
    added: usize,
) -> bool
    requires paired { ArePaired columns.old }
    requires most { length columns.old.rows.items ≤ MOST_LINKS }
    requires short { length changes.now ≤ MOST_CHANGES }
    requires added { added ≡ count_by (adds_link (database_of columns.old.rows.items)) changes.now }
    requires once { AreOnceEach changes.now }
    requires known { All (HasListedEnds columns.old.routers.items) changes.now }
    ensures changed { database_of columns.new.rows.items
        ≡ all_relinked (database_of columns.old.rows.items) changes.now }
    ensures tied { AreTiedColumns columns.new }
    ensures reverses { result ≡ true
        → AreReversesBut no_key columns.new.rows.items columns.new.reverses.items }
{
    if move_few(added, changes) {
        change_rows(columns, changes);
        return true;
    }
    scratch.change(columns, changes);
    false
}

/// Lists the span of each router: the range of the rows (links) that begin at it, and their lowest
/// and highest local address. `follows` says whether the column of reverses already fits the rows.
/// If it doesn't, the call also lists the index of each row's reverse.
fn list_beside(columns: &mut Columns, follows: bool)
    requires parts { AreRowParts columns.old }
    requires reverses { follows ≡ true
        → AreReversesBut no_key columns.old.rows.items columns.old.reverses.items }
    ensures columns { AreColumns columns.new }
    ensures rows { columns.new.rows.items ≡ columns.old.rows.items }
{
    list_spans(&mut columns.spans, &columns.routers, &columns.rows);
    if !follows {
        list_reverses(
            &mut columns.reverses,
            &columns.rows,
            &columns.ends,
            &columns.spans,
        );
    }
}

/// Makes the changes of a batch that fits the database. `added` is the number of changes that add a
/// link. If `brought` is 0, the links that the changes put begin and end at routers that are
/// already in the list of routers.
pub fn change_columns(
    columns: &mut Columns,
    scratch: &mut Scratch,
    changes: &[Change],
    added: usize,
    brought: usize,
)
    requires columns { AreColumns columns.old }
    requires added { added ≡ count_by (adds_link (database_of columns.old.rows.items)) changes.now }
    requires listed { brought ≡ 0 → All (HasListedEnds columns.old.routers.items) changes.now }
    requires short { length changes.now ≤ MOST_CHANGES }
    requires once { AreOnceEach changes.now }
    requires links { link_count (all_relinked (database_of columns.old.rows.items) changes.now)
        ≤ MOST_LINKS }
    requires few { router_count (all_relinked (database_of columns.old.rows.items) changes.now)
        ≤ MOST_ROUTERS }
    ensures changed { database_of columns.new.rows.items
        ≡ all_relinked (database_of columns.old.rows.items) changes.now }
    ensures columns { AreColumns columns.new }
{
    scratch.add_routers(columns, changes, brought);
    let follows = change_with_ends(columns, scratch, changes, added);
    scratch.drop_routers(columns);
    list_beside(columns, follows);
}
