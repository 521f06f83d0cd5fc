//! The solver reads one stream of rows and writes the line that answers each row. It works in one
//! thread, and publishes the database to no other thread.
//!
//! `specs/Script.antt` defines the lines and the summary of a run as a function of the bytes of its
//! rows. `specs/OutputAtError.antt` defines the output of a run that ends with an error, and
//! `specs/SolveLaws.antt` has the laws of all runs.
#![tactic(auto)]

mod error;
mod laws;
mod options;
mod solve_run;
mod solver;
mod summary;
mod table_sink;

pub use error::SolveError;
pub use laws::{rows_have_one_reply, runs_go_on_row_by_row, stops_at_a_prefix};
pub use options::RunOptions;
pub use solve_run::{run_solve, run_solve_with};
pub use solver::Solver;
pub use summary::Summary;
