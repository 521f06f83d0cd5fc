//! Answers many requests in one database. `Trees` keep a tree for each pair of a tail-end and
//! affinities that is requested often. If a tree is kept for a request, a walk by the tree may answer
//! the request. The search from both ends of `cspf_meet` answers other requests without hops. Each
//! answer meets the contract of `best`, whichever trees are kept.
//!
//! If all hops of a request are loose, and the prefix of each hop has only one owner, the legs are
//! answered one after the other. The owner of a prefix is kept for later hops with the same prefix.
//! `specs/Trees.antt` defines when the kept trees are trees of a database. A `TreeTable` is a table
//! with the trees of its database.
#![tactic(auto)]

mod class;
mod counting;
mod growth;
mod laws;
mod leg_walk;
mod legs;
mod limits;
mod owner_row;
mod owners;
mod searches;
mod tree_row;
mod tree_table;
mod trees;

pub use counting::growth_for;
pub use growth::Growth;
pub use laws::trees_outlast_bandwidth;
pub use limits::{MOST_TREE_MEGABYTES, MOST_TREES, TREE_BYTES, TREE_MEGABYTES, trees_in};
pub use searches::best_without_tree;
pub use tree_table::TreeTable;
pub use trees::Trees;
