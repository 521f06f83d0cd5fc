//! Makes the table that the batches of a journal lead to.

mod replay_error;
mod replaying;

pub use replay_error::ReplayError;
pub use replaying::replay;
