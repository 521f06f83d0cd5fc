//! The run of a book: one thread reads a stream of rows, and writes the lines that answer each row.
//! `Rows` of `cspf_stream` answers the rows of the base, and the book is its sink.
//!
//! `specs/BookRows.antt` defines how a record is read as a row, and `specs/RouteText.antt` how the
//! route of a `held` row is read. `specs/BookScript.antt` defines how a book answers each row, with
//! the lines of `specs/BookLines.antt` and `specs/PlacementLines.antt`. `specs/HeldRows.antt` defines
//! the `held` row from which a placement can be restored. `specs/Kept.antt` defines the text of an accepted row, which goes to the
//! writer `keep` before the book has the row's version. `specs/KeptRuns.antt` defines the lines of a
//! run, its summary, and what it writes to `keep`, also if a write to `keep` fails.
//! `specs/BookOutput.antt` defines the output of a run that an error stops.
//! `specs/BookScriptLaws.antt` and `specs/KeptLaws.antt` have the laws of each run, and
//! `specs/WrongRuns.antt` has wrong runs that these laws refuse.
#![tactic(auto)]

mod book_row;
mod book_row_error;
mod book_rows;
mod book_sink;
mod compact;
mod compact_run;
mod compact_stop;
mod held_refusal;
mod held_row;
mod keeper;
mod laws;
mod limits;
mod line;
mod placement_line;
mod ranges;
mod refusals;
mod route_field;
mod row_name;
mod row_text;
mod run;
mod settled;
mod write_fault;

pub use book_row::BookRow;
pub use book_row_error::BookRowError;
pub use book_rows::BookRows;
pub use book_sink::BookSink;
pub use compact_run::{read_book, run_compact, run_torn_compact};
pub use compact_stop::CompactStop;
pub use cspf_solve::{SolveError, Summary};
pub use cspf_stream::StreamError;
pub use held_refusal::HeldRefusal;
pub use held_row::{held_row_text, held_rows_are_read_back};
pub use keeper::{Keeps, KeepsNothing, Unkept};
pub use laws::{
    compacts_make_books, covered_books, kept_is_the_book, one_reply_of_books, runs_stop_once,
    sums_stay_small, worked_covers,
};
pub use limits::MOST_PLACING_VERSIONS;
pub use line::write_over;
pub use refusals::{PlaceRefusal, ReleaseRefusal};
pub use route_field::{read_steps, route_text, route_texts_are_read_back};
pub use row_name::RowName;
pub use run::run_book;
pub use settled::settled_part;
pub use write_fault::WriteFault;
