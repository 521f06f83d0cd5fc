//! The code that all runs with a publisher share: opening the publisher, refusing a stream, writing
//! the lines of answers, and the errors.

mod error;
pub(crate) mod opening;
pub(crate) mod refusing;
pub(crate) mod replies;

pub use error::RunError;
