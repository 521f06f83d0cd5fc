//! Finds two ways of the least total size that share no circuit, or no router either. If there are
//! none, it finds the reason.
//!
//! The search, `cspf_pair_search`, isn't trusted. It returns an answer and a potential for each router.
//! The check passes the answer only if the potentials prove it by the laws of `cspf_pair`. So the
//! contract of `best_pair` doesn't depend on the search.
#![tactic(auto)]

mod answering;
mod error;
mod excess;
mod judging;
mod order;
mod pair;
mod potentials;
mod sharing;
mod ways;
mod weights;

pub use error::PairError;
pub use pair::best_pair;
