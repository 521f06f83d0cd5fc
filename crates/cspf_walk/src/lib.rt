//! The walk from the head-end that follows from lower bounds. The rank of a way packs its cost and
//! its number of links into one number. `LowerBounds` gives for each router a lower bound of the
//! rank of a way to the tail-end. The walk takes from each router the first link over which the
//! bound falls by exactly the link's step. If it leads to the tail-end, it is the least route.
//!
//! `Edge` and `Last` are links of a table, by which walks are made.
#![tactic(auto)]

mod bounds;
mod edge;
mod last;
mod limits;
mod located_request;
mod walk;

pub use bounds::{LowerBounds, step};
pub use edge::Edge;
pub use last::Last;
pub use limits::COST_WEIGHT;
pub use located_request::LocatedRequest;
pub use walk::follow;
