//! The memory in which the changes of a batch are made. The memory is allocated once, when a table
//! is made.

ghost use Rattle.std.specs.Prelude.{◌≡◌, ◌≤◌, All, length};
ghost use Rattle.std.specs.Vec.{vec_capacity};
ghost use Rattle.cspf_model.specs.declared.limits.TheConstants.{MOST_CHANGES, MOST_LINKS, MOST_ROUTERS};
ghost use Rattle.cspf_columns.specs.declared.limits.TheConstants.{ROOM_FOR_LINKS, ROOM_FOR_ROUTERS};

use crate::columns::Columns;
use crate::ends::move_ends;
use crate::limits::{ROOM_FOR_LINKS, ROOM_FOR_ROUTERS};
use crate::merging::{merge, sort_changes};
use crate::renumbering::{keep_ends, list_places};
use crate::routers::add_ends;
use cspf_addr::Addr;
use cspf_model::{Change, Link, MOST_CHANGES};
use std::alloc::{AllocError, Global};
use std::mem::swap;

/// Memory for the rows (links), the column of ends and the list of routers that the changes
/// produce. It also has capacity for the changes sorted by key, and for the new indexes of routers.
/// For each row, a column of ends has the index of the router at which the link ends.
#[derive(Debug, Drop)]
pub struct Scratch {
    merged: Vec<Link>,
    ends: Vec<u16>,
    order: Vec<((Addr, Option<Addr>), u16)>,
    sorted: Vec<Change>,
    listed: Vec<Addr>,
    places: Vec<u16>,
    ghost room: { ROOM_FOR_LINKS ≤ vec_capacity merged },
    ghost room_for_ends: { ROOM_FOR_LINKS ≤ vec_capacity ends },
    ghost room_for_order: { MOST_CHANGES ≤ vec_capacity order },
    ghost room_for_changes: { MOST_CHANGES ≤ vec_capacity sorted },
    ghost room_for_routers: { ROOM_FOR_ROUTERS ≤ vec_capacity listed },
    ghost room_for_places: { ROOM_FOR_ROUTERS ≤ vec_capacity places },
}

/// Copies the routers to `listed`. This vector has capacity for all of them, so the call allocates
/// no memory and can't fail.
fn copy_routers(listed: &mut Vec<Addr>, routers: &[Addr])
    requires { length routers.now ≤ vec_capacity listed.old }
    ensures items { listed.new.items ≡ routers.now }
    ensures capacity { vec_capacity listed.old ≤ vec_capacity listed.new }
{
    listed.clear();
    let _ = listed.extend_from_slice(routers);
}

impl Scratch {
    /// Memory that is enough for the rows (links) of a full table and for a batch.
    pub fn new(alloc: Global) -> Result<Self, AllocError> {
        Ok(Scratch {
            merged: Vec::with_capacity(alloc, ROOM_FOR_LINKS)?,
            ends: Vec::with_capacity(alloc, ROOM_FOR_LINKS)?,
            order: Vec::with_capacity(alloc, MOST_CHANGES)?,
            sorted: Vec::with_capacity(alloc, MOST_CHANGES)?,
            listed: Vec::with_capacity(alloc, ROOM_FOR_ROUTERS)?,
            places: Vec::with_capacity(alloc, ROOM_FOR_ROUTERS)?,
        })
    }
}

impl Scratch {
    ghost use Rattle.cspf_model.specs.Lemmas.LinkChanges.{all_relinked};
    ghost use Rattle.cspf_model.specs.Lemmas.CountedEnds.{HasListedEnds};
    ghost use Rattle.cspf_model.specs.Lemmas.LinkRows.{database_of};
    ghost use Rattle.cspf_columns.specs.Rows.{AreEndsOf, AreTiedColumns, HaveRoom};
    ghost use Rattle.cspf_columns.specs.Index.{router_list};
    ghost use Rattle.cspf_model.specs.Refusals.{AreOnceEach};

    /// Makes changes with distinct keys to the rows (links) and to the column of ends. The links
    /// that the changes put begin and end at routers in the list of routers. The call allocates no
    /// memory. For each row, a column of ends has the index of the router at which the link ends.
    pub(crate) fn change(&mut self, columns: &mut Columns, changes: &[Change])
        requires tied { AreTiedColumns columns.old }
        requires most { length columns.old.rows.items ≤ MOST_LINKS }
        requires short { length changes.now ≤ MOST_CHANGES }
        requires once { AreOnceEach changes.now }
        requires known { All (HasListedEnds columns.old.routers.items) changes.now }
        ensures changed { database_of columns.new.rows.items
            ≡ all_relinked (database_of columns.old.rows.items) changes.now }
        ensures tied { AreTiedColumns columns.new }
    {
        sort_changes(&mut self.order, &mut self.sorted, changes);
        self.merged.clear();
        self.ends.clear();
        merge(&mut self.merged, &mut self.ends, columns, &self.sorted);
        swap(&mut columns.rows, &mut self.merged);
        swap(&mut columns.ends, &mut self.ends);
    }

    /// Adds to the list of routers the two routers of each link that the changes put, and adapts
    /// the column of ends to the new list. If `brought` is 0, the list already has these routers,
    /// and the call does nothing.
    pub(crate) fn add_routers(&mut self, columns: &mut Columns, changes: &[Change], brought: usize)
        requires listed { brought ≡ 0
            → All (HasListedEnds columns.old.routers.items) changes.now }
        requires tied { AreTiedColumns columns.old }
        requires few { length columns.old.routers.items ≤ MOST_ROUTERS }
        requires short { length changes.now ≤ MOST_CHANGES }
        ensures listed { All (HasListedEnds columns.new.routers.items) changes.now }
        ensures tied { AreTiedColumns columns.new }
        ensures rows { columns.new.rows.items ≡ columns.old.rows.items }
        ensures reverses { columns.new.reverses.items ≡ columns.old.reverses.items }
    {
        if brought == 0 {
            return;
        }
        copy_routers(&mut self.listed, &columns.routers);
        add_ends(&mut self.listed, changes);
        list_places(&mut self.places, &columns.routers, &self.listed);
        move_ends(&mut columns.ends, &self.places);
        swap(&mut columns.routers, &mut self.listed);
    }

    /// Removes from the list of routers each router at which no row (a link) begins or ends, and
    /// adapts the column of ends to the new list.
    pub(crate) fn drop_routers(&mut self, columns: &mut Columns)
        requires tied { AreTiedColumns columns.old }
        ensures room { HaveRoom columns.new }
        ensures all { columns.new.routers.items ≡ router_list (database_of columns.old.rows.items) }
        ensures ends { AreEndsOf columns.old.rows.items columns.new.routers.items columns.new.ends.items }
        ensures rows { columns.new.rows.items ≡ columns.old.rows.items }
        ensures reverses { columns.new.reverses.items ≡ columns.old.reverses.items }
    {
        keep_ends(
            &mut self.listed,
            &mut self.places,
            &columns.routers,
            &columns.ends,
            &columns.rows,
        );
        if self.listed.len() == columns.routers.len() {
            return;
        }
        move_ends(&mut columns.ends, &self.places);
        swap(&mut columns.routers, &mut self.listed);
    }
}
