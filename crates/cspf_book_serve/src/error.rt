//! Why no run of a server with a book begins.

use cspf_book_run::CompactStop;
use cspf_serve::{RunError, ServedError, StreamError};
use std::alloc::AllocError;

/// Why no run of a server with a book begins. None of the updates and of the clients' rows was read.
#[derive(Drop)]
pub enum ServedBookError {
    /// The rows of the beginning aren't those of a book: a row is refused, changes are open at their
    /// end, or they can't be read.
    Begin(CompactStop),
    /// The publisher wasn't opened, the beginning wasn't published, memory was refused, or the system
    /// had no thread for a client. If the journal failed, a part of the beginning's batches may be in
    /// it.
    Served(ServedError),
    /// The `over` lines of the beginning weren't written. The beginning is in the journal.
    Said(StreamError),
}

impl From<AllocError> for ServedBookError {
    ghost use Rattle.cspf_book_serve.specs.ServedBooks.{IsOtherFault};

    ghost from_gives = { λ _ why. IsOtherFault why };

    fn from(_refused: AllocError) -> ServedBookError {
        ServedBookError::Served(ServedError::Run(RunError::Memory))
    }
}
