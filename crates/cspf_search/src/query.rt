use cspf_db::Table;
use cspf_graph::Role;
use cspf_model::Request;

/// What a search is asked: the request, the table, what a route may do at each state, and the
/// targets of each hop. A state is a router in a leg. The index of a state is the router's index in
/// the list of routers, plus `MOST_ROUTERS` for each earlier leg.
#[derive(Clone, Copy)]
pub(crate) struct Query<'a> {
    /// The table of the database.
    pub(crate) table: &'a Table,
    /// The request.
    pub(crate) request: &'a Request,
    /// The number of legs of a route: one for each hop, and the leg after the last hop.
    pub(crate) legs: usize,
    /// For each state (a router in a leg), what a route may do there.
    pub(crate) roles: &'a [Role],
    /// For each hop, the routers where the leg to this hop may end (its targets), by their indexes
    /// in the list of routers.
    pub(crate) targets: &'a [Vec<u16>],
}
