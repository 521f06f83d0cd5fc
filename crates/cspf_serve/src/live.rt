//! The run that publishes batches to a journal while workers answer requests.

mod inputs;
mod live_run;

pub use live_run::{run_live_rows, run_live_rows_with};
