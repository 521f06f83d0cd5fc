//! Replaces rows (links) by links that join the same two interfaces. The columns beside the rows
//! don't change.
ghost use Rattle.std.specs.Prelude.{◌≡◌, ◌≤◌, All};
ghost use Rattle.std.specs.Vec.{vec_capacity};
ghost use Rattle.cspf_columns.specs.Rows.{AreColumns};
ghost use Rattle.cspf_columns.specs.AlikeChanges.{IsAlike, RunAlike};
ghost use Rattle.cspf_model.specs.Lemmas.LinkChanges.{relinked, all_relinked};
ghost use Rattle.cspf_model.specs.Lemmas.LinkRows.{database_of, AreByKey};

use crate::columns::Columns;
use crate::rows::index_of;
use cspf_model::{Change, Link};

/// Replaces a row (a link) by the change's link, which joins the same two interfaces.
fn write_one(rows: &mut Vec<Link>, change: &Change)
    requires by_key { AreByKey rows.old.items }
    requires alike { IsAlike rows.old.items change.now }
    ensures changed { database_of rows.new.items ≡ relinked (database_of rows.old.items) change.now }
    ensures by_key { AreByKey rows.new.items }
    ensures alike { RunAlike rows.old.items rows.new.items }
    ensures capacity { vec_capacity rows.old ≤ vec_capacity rows.new }
{
    if let Change::Put(link) = change {
        match index_of(rows, link.from, link.local) {
            Some(at) => rows[at] = *link,
            None => unreachable!(),
        }
    }
}

/// Makes changes. Each change replaces a row (a link) by a link that joins the same two interfaces.
fn write_all(rows: &mut Vec<Link>, changes: &[Change])
    requires by_key { AreByKey rows.old.items }
    requires alike { All (IsAlike rows.old.items) changes.now }
    ensures changed { database_of rows.new.items ≡ all_relinked (database_of rows.old.items) changes.now }
    ensures by_key { AreByKey rows.new.items }
    ensures alike { RunAlike rows.old.items rows.new.items }
    ensures capacity { vec_capacity rows.old ≤ vec_capacity rows.new }
{
    for change in changes {
        write_one(rows, change);
    }
}

/// Makes changes. Each change replaces a row (a link) by a link that joins the same two interfaces.
/// The columns beside the rows don't change.
pub fn write_over(columns: &mut Columns, changes: &[Change])
    requires columns { AreColumns columns.old }
    requires alike { All (IsAlike columns.old.rows.items) changes.now }
    ensures changed { database_of columns.new.rows.items
        ≡ all_relinked (database_of columns.old.rows.items) changes.now }
    ensures columns { AreColumns columns.new }
    ensures routers { columns.new.routers.items ≡ columns.old.routers.items }
{
    write_all(&mut columns.rows, changes);
}
