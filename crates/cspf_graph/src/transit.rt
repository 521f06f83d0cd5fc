ghost use Rattle.std.specs.Prelude.{◌<◌, ◌↔◌, IsTrue, length, slice_index};
ghost use Rattle.cspf_db.specs.Index.{router_list};
ghost use Rattle.cspf_model.specs.Admissible.{MayLeave};
ghost use Rattle.cspf_graph.specs.Roles.{MayBeLeft, MayLeadOver};

use cspf_addr::Addr;
use cspf_db::Table;
use cspf_model::Request;

/// Whether a walk may leave the router that it has reached by `links_so_far` links. It may if the
/// router has transit, or if the walk has no links yet (RFC 6987).
pub fn may_leave(table: &Table, router: Addr, links_so_far: u32) -> bool
    ensures { IsTrue result ↔ MayLeave table.now router links_so_far }
{
    links_so_far == 0 || table.transit(router)
}

/// The same as `may_leave`, for the router with the index `place` in `Table::routers`.
pub fn may_leave_at(table: &Table, place: usize, links_so_far: u32) -> bool
    requires { place < length (router_list table.now) }
    ensures { IsTrue result
        ↔ MayLeave table.now (slice_index (router_list table.now) place) links_so_far }
{
    links_so_far == 0 || table.transit_at(place)
}

/// Whether a walk of the request may leave the router with the index `place` in `Table::routers`:
/// the router has transit, or is the head-end.
pub fn may_be_left(table: &Table, place: usize, request: &Request) -> bool
    requires { place < length (router_list table.now) }
    ensures { IsTrue result
        ↔ MayBeLeft table.now request.now (slice_index (router_list table.now) place) }
{
    table.transit_at(place) || table.routers()[place] == request.from
}

/// Whether a way to the tail-end of the request may lead over the router with the index `place` in
/// `Table::routers`, or end there: the router has transit, or is the tail-end.
pub fn may_lead_over(table: &Table, request: &Request, place: usize) -> bool
    requires { place < length (router_list table.now) }
    ensures { IsTrue result
        ↔ MayLeadOver table.now request.now (slice_index (router_list table.now) place) }
{
    table.transit_at(place) || table.routers()[place] == request.to
}
