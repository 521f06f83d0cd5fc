//! Pairs of ways: two ways from a head-end to a tail-end that share no circuit, or no router either.
//! `specs/` defines ways, pairs, the size of a pair and the best answer to a request for a pair.
//! `laws` says what follows from these definitions.
//!
//! A *potential* gives each router a number. Whatever these numbers are, they give a lower bound of
//! the size of all pairs. The laws `least_by_potentials` and `ways_by_potentials` state this, so a
//! caller can check an answer without any knowledge of how it was found.
#![tactic(auto)]

mod kind;
mod laws;
mod outcome;
mod request;
mod weight;

pub use kind::Kind;
pub use laws::{
    least_by_potentials, no_pair_for_this_reason, pair_by_routers_is_by_circuits,
    pairs_of_links_are_no_smaller, ways_by_potentials,
};
pub use outcome::PairOutcome;
pub use request::PairRequest;
pub use weight::COST_WEIGHT;
