//! The run of a server with a book: one thread answers the rows of a book and publishes each of its
//! versions, while clients ask.
//!
//! `cspf_book_run` answers the rows. For each accepted row, `Shown` first writes the row's text to
//! the writer `keep`, and then publishes the row's batch. So each published version's database is the
//! effective database of the book after the accepted rows up to it. `specs/ShownTexts.antt` defines
//! what is written and published for a row, and `specs/ServedBooks.antt` the answers to rows, the
//! beginning of a run from earlier rows, and the result of a whole run.
//!
//! The run with clients is that of `cspf_serve`, with a state of its own for the rows.
#![tactic(auto)]

mod begin;
mod book_serve;
mod book_updates;
mod error;
mod laws;
mod shown;

pub use book_serve::{ServedBook, run_serve_book};
pub use cspf_book_run::CompactStop;
pub use error::ServedBookError;
pub use laws::{
    published_books, published_books_are_covered, served_book_replies_are_fresh,
    served_kept_is_the_book,
};
