//! Answers requests for routes that avoid some links. `cspf_exclusions` says which links a request
//! excludes, and removes them from a table.
//!
//! `specs/BestExcept.antt` defines the best answer. `specs/ExceptLaws.antt` has its laws.
#![tactic(auto)]

mod best;
mod laws;

pub use best::{best_except, best_except_in};
pub use laws::{more_exclusions_cost_no_less, one_best_except};
