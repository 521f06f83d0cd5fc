//! Searches for two ways of the least total size that share no circuit, or no router either. If there
//! are none, it searches for the reason.
//!
//! Nothing of what the search finds is trusted. Its contracts say only that it is safe and ends. It
//! returns an answer and a potential for each router, and `cspf_disjoint` checks whether the
//! potentials prove the answer.
#![tactic(auto)]

mod finding;
mod found;
mod lists;
mod search;
mod ways_found;

pub use finding::find;
pub use found::{Found, Verdict};
