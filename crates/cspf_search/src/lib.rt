//! Computes the least route of a request in a table's database. A route may begin or end at a
//! router that is marked as without transit, but it passes through no such router.
//!
//! `best` searches with a heap. `best_by_tree` searches with a heap, and with a tree that many
//! requests share. `best_by_walk` searches nothing, and answers only what follows from such a tree.
//! `best_by_rounds` searches round by round. The answer of each of these functions meets
//! `IsBestAnswer` of `cspf_model`.
#![tactic(auto)]

mod arena;
mod bounds;
mod floor;
mod forward_star;
mod frontier;
mod goal;
mod labels;
mod laws;
mod limits;
mod packing;
mod query;
mod ring;
mod ring_edge;
mod rounds;
mod search;
mod strict;
mod tree;
mod tree_ring;
mod tree_steps;

pub use cspf_model::{MOST_ROUTE_LINKS, Outcome, Route};
pub use laws::trees_are_shared;
pub use search::{best, best_by_rounds, best_by_tree, best_by_walk};
pub use tree::Tree;
