//! Stores the links and the routers of a database as columns, and makes changes to these columns.
//! `Table` of `cspf_db` keeps its database in such columns. Most definitions that the contracts of
//! this crate cite are private to `cspf_columns` and `cspf_db`, because the contracts of `Table`
//! speak only of the database.
#![tactic(auto)]

mod columns;
mod ends;
pub mod insertion;
mod limits;
mod merging;
mod one_row;
pub mod overwriting;
mod renumbering;
pub mod reverses;
pub mod routers;
pub mod row_changes;
pub mod rows;
mod scratch;
mod spans;

pub use columns::{Columns, with_room};
pub use limits::NO_LINK;
pub use scratch::Scratch;
pub use spans::Span;
