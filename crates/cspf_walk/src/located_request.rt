use cspf_db::Table;
use cspf_model::Request;

/// What is searched: the table, the request, and the indexes of the head-end and the tail-end in
/// the list of routers.
#[derive(Clone, Copy)]
pub struct LocatedRequest<'a> {
    /// The table of the database.
    pub table: &'a Table,
    /// The request, which has no hops.
    pub request: &'a Request,
    /// The index of the head-end.
    pub from: usize,
    /// The index of the tail-end.
    pub to: usize,
}
