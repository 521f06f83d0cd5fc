//! Helpers for the tests of streams: an `Answering` that answers rows, a reader of rows, and a
//! writer of lines.

mod dialogues;
mod faults;
mod first_rows;
mod words;

ghost use Rattle.std.specs.Prelude.{◌≡◌, ◌+◌, ◌<◌, [], MatchResult};
ghost use Rattle.cspf_rows.specs.Rows.{row_of};
ghost use Rattle.cspf_stream.specs.RefusedRows.{refused_row_line};

use cspf_rows::Row;
use cspf_stream::{Answering, refused_row};
use csv::ByteRecord;
use std::alloc::{AllocError, Global};
use std::cell::Cell;
use std::io;
use std::io::{ErrorKind, Read, Write};

/// Answers a refused row with the line of its refusal, and any other row with an empty line.
#[derive(Drop)]
struct Refusals {
    /// The number of rows of the stream that were refused.
    refused: u64,
}

/// The context is the number of the row at which memory is refused. The first row has the number 1.
impl Answering<u64> for Refusals {
    type Fault = AllocError;

    ghost answers = { λ place s fields line t. MatchResult (row_of fields) (λ _. (line ≡ []) × (t ≡ s))
        (λ error. (line ≡ refused_row_line place error)
        × (t ≡ record s { refused = s.refused + 1 })) };

    ghost fails = { λ fault place s fields t. Unit {0} };

    ghost may_stand = { λ place s. s.refused < place };

    fn answer(
        &mut self,
        no_memory_at: &u64,
        alloc: Global,
        place: u64,
        fields: &ByteRecord,
    ) -> Result<Vec<u8>, AllocError> {
        if place == *no_memory_at {
            return Err(AllocError);
        }
        match Row::read(fields) {
            Ok(_) => Ok(Vec::new(alloc)),
            Err(error) => {
                let line = refused_row(alloc, place, error)?;
                self.refused += 1;
                Ok(line)
            }
        }
    }
}

/// The events that the reader and the writer note while a stream is answered.
#[derive(Drop)]
struct Events {
    /// The number of bytes that were written.
    written: Cell<usize>,
    /// The number of these bytes that were written before the last flush.
    flushed: Cell<usize>,
    /// The number of flushes.
    flushes: Cell<u32>,
    /// Whether there was a read before all written bytes were flushed.
    is_late: Cell<bool>,
}

fn no_events() -> Events {
    Events {
        written: Cell::new(0),
        flushed: Cell::new(0),
        flushes: Cell::new(0),
        is_late: Cell::new(false),
    }
}

/// A reader that returns one row in each read. After the last row the reader ends, or fails if
/// `fails` is true.
#[derive(Drop)]
struct Rows<'a> {
    rows: &'a [&'a [u8]],
    /// The number of rows that the reader has begun to return.
    at: usize,
    /// The rest of the last row that the reader began to return.
    rest: &'a [u8],
    fails: bool,
    events: &'a Events,
}

/// A reader of these rows that has returned no row yet.
fn rows_of<'a>(rows: &'a [&'a [u8]], fails: bool, events: &'a Events) -> Rows<'a> {
    Rows {
        rows,
        at: 0,
        rest: &[],
        fails,
        events,
    }
}

impl<'a> Read for Rows<'a> {
    fn read(&mut self, buf: &mut [u8]) -> io::Result<usize> {
        if self.rest.is_empty() {
            if self.events.written.get() != self.events.flushed.get() {
                self.events.is_late.set(true);
            }
            let Some(row) = self.rows.get(self.at) else {
                return if self.fails {
                    Err(io::Error::from(ErrorKind::BrokenPipe))
                } else {
                    Ok(0)
                };
            };
            self.at = self.at.saturating_add(1);
            self.rest = *row;
        }
        let given = self.rest.len().min(buf.len());
        buf[..given].copy_from_slice(&self.rest[..given]);
        self.rest = &self.rest[given..];
        Ok(given)
    }
}

/// A writer that accepts `most` bytes, and then no more. After `most_flushes` flushes each further
/// flush fails.
#[derive(Drop)]
struct Lines<'a> {
    held: Vec<u8>,
    most: usize,
    most_flushes: u32,
    events: &'a Events,
}

/// A writer that has no bytes yet.
fn lines_of<'a>(alloc: Global, most: usize, most_flushes: u32, events: &'a Events) -> Lines<'a> {
    Lines {
        held: Vec::new(alloc),
        most,
        most_flushes,
        events,
    }
}

impl<'a> Write for Lines<'a> {
    fn write(&mut self, buf: &[u8]) -> io::Result<usize> {
        let taken = buf.len().min(self.most.saturating_sub(self.held.len()));
        if self.held.extend_from_slice(&buf[..taken]).is_err() {
            return Err(io::Error::from(ErrorKind::OutOfMemory));
        }
        self.events.written.set(self.held.len());
        Ok(taken)
    }

    fn flush(&mut self) -> io::Result<()> {
        if self.events.flushes.get() >= self.most_flushes {
            return Err(io::Error::from(ErrorKind::BrokenPipe));
        }
        self.events
            .flushes
            .set(self.events.flushes.get().saturating_add(1));
        self.events.flushed.set(self.held.len());
        Ok(())
    }
}
