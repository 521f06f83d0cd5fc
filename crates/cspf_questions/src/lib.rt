//! Rows that ask other questions than an `ask` row. Such a row is answered only where its kind is
//! asked for: the crates above read it first, and leave all other rows to the rows of a database.
//!
//! An `except` row asks for a route that avoids some links. A `pair` row asks for two ways that share
//! no circuit, or no router either. `specs/QuestionRows.antt` defines how such a row is read.
//! `specs/QuestionLines.antt` defines the lines that answer and refuse it, and `specs/PairLines.antt`
//! those for pairs.
//!
//! `read_asked` reads a stream of rows that ask: `ask` rows, and the rows of questions.
//! `specs/AskedRows.antt` defines the rows of such a stream, and why it isn't read.
//!
//! `run_questions` is the run of `solve` over rows that also ask questions. The rows of a database are
//! answered by the solver, and the questions from the solver's table. `specs/QuestionScript.antt`
//! defines the lines and the summary of a run.
#![tactic(auto)]

mod asked;
mod asked_reader;
mod error;
mod field;
mod kinds;
mod line;
mod pair_line;
mod pair_row;
mod question;
mod reading;
mod run;
mod run_error;
mod solver;

pub use asked::{AskedError, AskedRow};
pub use asked_reader::read_asked;
pub use error::{ExceptFault, QuestionError};
pub use kinds::{AnswersBoth, AnswersExcept, AnswersNone, AnswersPairs, Kinds, QuestionKinds};
pub use line::refused_question;
pub use question::{ExceptQuestion, Question, pair_reply};
pub use reading::ReadFields;
pub use run::run_questions;
pub use run_error::QuestionRunError;
pub use solver::QuestionSolver;
