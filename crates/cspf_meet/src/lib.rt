//! Computes the least route of a request without hops by two searches that meet. One search follows
//! the links from the head-end, the other one follows the links from the tail-end against their
//! direction. Neither compares ways of equal cost and equal number of links.
//!
//! What both searches have found gives for each router a lower bound of the rank of a way to the
//! tail-end. The rank of a way packs its cost and its number of links into one number. The route
//! then follows from the bounds: from each router on, it takes the first link over which the bound
//! falls by exactly the link's step.
#![tactic(auto)]

mod bounds;
mod by_bounds;
mod corridor;
mod direction;
mod edge;
mod guide;
mod guided;
mod labels;
mod limits;
mod look;
mod meeting;
mod narrow;
mod search;
mod turn;

pub use by_bounds::best_by_bounds;
pub use search::best_from_both_ends;
