//! The run that publishes the batches of a journal, and then answers the requests of a stream.

mod answering;
mod batch_run;
mod growing;
mod laws;
mod publishing;
mod versions;

pub use batch_run::{run_batch, run_batch_with};
pub use laws::lines_of_a_script;
