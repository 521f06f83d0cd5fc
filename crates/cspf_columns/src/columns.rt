//! The rows (links) of a table, and the table's columns. A column is a list with one item for each
//! row, or one item for each router.
ghost use Rattle.std.specs.Prelude.{◌≡◌, ◌≤◌, [], IfOk};
ghost use Rattle.std.specs.Vec.{vec_capacity};
ghost use Rattle.cspf_columns.specs.Rows.{AreColumns};

use crate::limits::{ROOM_FOR_LINKS, ROOM_FOR_ROUTERS};
use crate::spans::Span;
use cspf_addr::Addr;
use cspf_model::{Link, MOST_ROUTERS};
use std::alloc::{AllocError, Global};

/// The links and the routers of a database, both in order, and columns with one item for each link
/// or one item for each router.
#[derive(Debug, Drop)]
pub struct Columns {
    /// The links, in order of their keys.
    pub rows: Vec<Link>,
    /// The routers, in increasing order.
    pub routers: Vec<Addr>,
    /// For each link, the index of the router at which the link ends.
    pub ends: Vec<u16>,
    /// For each link, the index of its reverse, or `NO_LINK` if it has no reverse.
    pub reverses: Vec<u16>,
    /// For each router, the range of the links that begin at it.
    pub spans: Vec<Span>,
}

impl Columns {
    /// The columns of an empty database, with capacity for a full database and a batch.
    pub fn new(alloc: Global) -> Result<Columns, AllocError>
        ensures columns { IfOk result AreColumns }
        ensures rows { IfOk result (λ columns. columns.rows.items ≡ []) }
        ensures routers { IfOk result (λ columns. columns.routers.items ≡ []) }
    {
        Ok(Columns {
            rows: Vec::with_capacity(alloc, ROOM_FOR_LINKS)?,
            routers: Vec::with_capacity(alloc, ROOM_FOR_ROUTERS)?,
            ends: Vec::with_capacity(alloc, ROOM_FOR_LINKS)?,
            reverses: Vec::with_capacity(alloc, ROOM_FOR_LINKS)?,
            spans: Vec::with_capacity(alloc, MOST_ROUTERS)?,
        })
    }

    /// Columns of the same database, with the same capacity as `new` allocates.
    pub fn try_clone(&self, alloc: Global) -> Result<Columns, AllocError>
        requires { AreColumns self.now }
        ensures columns { IfOk result AreColumns }
        ensures rows { IfOk result (λ columns. columns.rows.items ≡ self.now.rows.items) }
        ensures routers { IfOk result (λ columns. columns.routers.items ≡ self.now.routers.items) }
    {
        Ok(Columns {
            rows: with_room(alloc, &self.rows, ROOM_FOR_LINKS)?,
            routers: with_room(alloc, &self.routers, ROOM_FOR_ROUTERS)?,
            ends: with_room(alloc, &self.ends, ROOM_FOR_LINKS)?,
            reverses: with_room(alloc, &self.reverses, ROOM_FOR_LINKS)?,
            spans: with_room(alloc, &self.spans, MOST_ROUTERS)?,
        })
    }
}

/// A list with these items, and with capacity for at least `room` items.
pub fn with_room<T: Copy>(alloc: Global, items: &[T], room: usize) -> Result<Vec<T>, AllocError>
    ensures items { IfOk result (λ list. list.items ≡ items.now) }
    ensures room { IfOk result (λ list. room ≤ vec_capacity list) }
{
    let mut list = Vec::with_capacity(alloc, room)?;
    list.extend_from_slice(items)?;
    Ok(list)
}
