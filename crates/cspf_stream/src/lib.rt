//! A stream of rows that are answered one by one. The line of each row is written before the next
//! row is read. A stream has at most 2^64 - 1 rows, or fewer if its caller sets a lower limit.
//!
//! The `Answering` of a stream answers each row. `specs/RowAnswers.antt` defines the answers to a
//! stream of rows. `specs/StreamStops.antt` defines what was read, answered and written if a stream
//! stops before its end, and which error it returns.
//!
//! `run_rows` also writes a last line, which the `Ending` of a stream gives. `specs/Runs.antt` defines
//! such a run, and its output if it stops.
//!
//! `Rows` answers each row with the help of a `Sink`, which accepts or refuses batches and answers
//! requests. `specs/RowsTaken.antt` defines these answers, and `specs/Sinks.antt` defines a sink.
//!
//! This crate also has the parts that all programs that answer rows share. These are the steps that
//! rows ask for, the open changes (`specs/OpenChanges.antt`), and the reasons why a batch is
//! refused. Another part is the text of each line except replies (`specs/Lines.antt`,
//! `specs/RefusedRows.antt`).
#![tactic(auto)]

mod answering;
mod batch_refusal;
mod error;
mod limits;
mod line;
mod open_changes;
mod refusal;
mod rows;
mod run;
mod sink;
mod stream;

pub use answering::{Answering, Ending};
pub use batch_refusal::BatchRefusal;
pub use cspf_rows::Step;
pub use error::{RunStop, StreamError, StreamStop};
pub use limits::MOST_STREAM_ROWS;
pub use line::StreamLine;
pub use open_changes::OpenChanges;
pub use refusal::refused_row;
pub use rows::Rows;
pub use run::run_rows;
pub use sink::{BatchAnswer, Sink};
pub use stream::{answer_first_rows, answer_rows, put_line};
