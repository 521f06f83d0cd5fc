//! Removes the links from a table that a request excludes. An exclusion names these links by the
//! addresses of their interfaces, or by the routers at which they begin or end.
//!
//! `specs/Exclusions.antt` defines which links are excluded, and the database without them.
//! `specs/Laws.antt` has laws of excluded links.
#![tactic(auto)]

mod exclusion;
mod laws;
mod listing;
mod removal;
mod without_links;

pub use exclusion::{Exclusion, ExclusionKind, Exclusions, MOST_EXCLUSIONS};
pub use laws::{
    excluded_with_reverse, no_exclusion_no_difference, one_database_without,
    walks_without_excluded_links,
};
pub use without_links::without;
