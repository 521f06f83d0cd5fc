//! The types and definitions that the other crates cite: databases, batches, admissible links,
//! walks, routes, the order of walks, and the best answer. `specs/` has the definitions, and `laws`
//! has laws that follow from them.
#![tactic(auto)]

mod batch;
mod laws;
mod limits;
mod link;
mod outcome;
mod refusal;
mod request;
mod route;

pub use batch::{Batch, Change};
pub use laws::{
    absorbing, counted_routers, fields_of_links_and_requests, last_change_decides, lawful_batches,
    limits_of_formats, one_best_answer, one_refusal, order_of_walks, route_without_hops,
    worked_admission, worked_affinities, worked_changes, worked_ends, worked_marks, worked_orders,
    worked_reverses, worked_routes, worked_ties, worked_unknown_ends,
};
pub use limits::{
    MOST_CHANGES, MOST_LEGS, MOST_LINKS, MOST_MARKS, MOST_ROUTE_LINKS, MOST_ROUTERS, MOST_VERSIONS,
};
pub use link::{Link, LinkError};
pub use outcome::Outcome;
pub use refusal::Refusal;
pub use request::{Request, RequestError};
pub use route::Route;
