//! Why a record is no row of a book, and the line of a refused row.

ghost use Rattle.std.specs.Prelude.{◌≡◌, IfOk};
ghost use Rattle.cspf_book_run.specs.BookRowWords.{refused_book_row_line};
ghost use Rattle.cspf_book_run.specs.declared.book_row_error.BookRowError.TheVariants as book_row_error;

use cspf_rows::RowError;
use std::alloc::{AllocError, Global};
use std::error::Error;
use std::fmt;

/// Why a row of a book is refused by its number: its record is no row, or memory was refused.
#[derive(Clone, Copy, Debug, PartialEq, Eq)]
pub enum BookRowError {
    /// The reason isn't the route of a `held` row.
    Row(RowError),
    /// The last field of a `held` row doesn't spell a route, or the route doesn't lead to the
    /// request's tail-end.
    Route,
    /// Memory was refused at the row. Only a server reports it; elsewhere the run ends.
    Memory,
}

impl fmt::Display for BookRowError {
    ghost use Rattle.std.specs.Prelude.{Some};
    ghost use Rattle.cspf_book_run.specs.BookRowWords.{book_row_words};

    ghost output = { λ error. Some (book_row_words error) };

    fn fmt<W: fmt::Write>(&self, f: &mut fmt::Formatter<W>) -> fmt::Result {
        match self {
            BookRowError::Row(error) => write!(f, "{error}"),
            BookRowError::Route => f.write_str("route"),
            BookRowError::Memory => f.write_str("memory"),
        }
    }
}

impl Error for BookRowError {}

impl From<RowError> for BookRowError {
    ghost from_gives = { λ error book_error. book_error ≡ book_row_error.Row error };

    fn from(error: RowError) -> BookRowError {
        BookRowError::Row(error)
    }
}

/// The line of a refused row, including the line feed. `place` is the number of the row, counted
/// from 1.
pub(crate) fn refused_book_row(
    alloc: Global,
    place: u64,
    error: BookRowError,
) -> Result<Vec<u8>, AllocError>
    ensures { IfOk result (λ line. line.items ≡ refused_book_row_line place error) }
{
    Ok(format!(in alloc; "row {place} refused: {error}\n")?.into_bytes())
}
