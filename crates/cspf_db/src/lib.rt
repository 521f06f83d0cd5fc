//! The table that stores a traffic engineering database. The contracts of `Table` cite the
//! definitions of `cspf_model`. This crate also exports the types of `cspf_model`.
#![tactic(auto)]

mod limits;
mod replay;
mod table;

pub use cspf_columns::NO_LINK;
pub use cspf_model::{
    Batch, Change, Link, LinkError, MOST_CHANGES, MOST_LINKS, MOST_MARKS, MOST_ROUTERS, Refusal,
    Request, RequestError, absorbing, counted_routers, fields_of_links_and_requests,
    last_change_decides, lawful_batches, limits_of_formats, one_best_answer, one_refusal,
    order_of_walks, route_without_hops, worked_admission, worked_affinities, worked_changes,
    worked_ends, worked_marks, worked_orders, worked_reverses, worked_routes, worked_ties,
    worked_unknown_ends,
};
pub use replay::{UnfitBatch, replay_into};
pub use table::{Plan, Table, shapes_tell_routers};
