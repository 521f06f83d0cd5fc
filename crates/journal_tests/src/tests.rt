//! Helpers for the tests: an assertion, and a reader. The reader returns a text in pieces, or
//! several times, and may fail after the text.

mod audits;
mod batches;
mod cuts;
mod ends;
mod journals;
mod memory;
mod output;
mod questions;
mod records;
mod requests;
mod rows;
mod snapshots;
mod streams;

use cspf_model::Batch;
use cspf_rows::batch_text;
use std::alloc::{AllocError, Global};
use std::io;
use std::io::{ErrorKind, Read};
use std::process::Abort;

/// If the case doesn't hold, prints `text` and stops the test.
fn assert_case(rt: &impl Abort, text: &[u8], holds: bool) {
    assert!(rt; holds, "{text:?}");
}

/// A batch without changes.
fn empty_batch(alloc: Global) -> Batch {
    Batch {
        number: 0,
        changes: Vec::new(alloc),
    }
}

/// Whether the batch is written as this text.
fn has_text(alloc: Global, batch: &Batch, text: &[u8]) -> Result<bool, AllocError> {
    Ok(batch_text(alloc, batch)?.as_slice() == text)
}

/// A reader that returns a text `times` times. Each read returns at most `width` bytes. After the
/// text the reader ends, or fails if `fails` is true.
#[derive(Drop)]
struct Pieces<'a> {
    text: &'a [u8],
    at: usize,
    width: usize,
    times: u32,
    fails: bool,
}

impl<'a> Read for Pieces<'a> {
    fn read(&mut self, buf: &mut [u8]) -> io::Result<usize> {
        if self.at >= self.text.len() {
            self.at = 0;
            self.times = self.times.saturating_sub(1);
        }
        if self.times == 0 && self.fails {
            return Err(io::Error::from(ErrorKind::BrokenPipe));
        }
        if self.times == 0 {
            return Ok(0);
        }
        let rest = self.text.get(self.at..).unwrap_or(&[]);
        let given = rest.len().min(self.width).min(buf.len());
        buf[..given].copy_from_slice(&rest[..given]);
        self.at = self.at.saturating_add(given);
        Ok(given)
    }
}

/// A reader that returns the text one byte at a time.
fn by_bytes(text: &[u8]) -> Pieces<'_> {
    Pieces {
        text,
        at: 0,
        width: 1,
        times: 1,
        fails: false,
    }
}

/// A reader that returns the same row `times` times.
fn repeated(row: &[u8], times: u32) -> Pieces<'_> {
    Pieces {
        text: row,
        at: 0,
        width: 65_536,
        times,
        fails: false,
    }
}

/// A reader that returns the text, and fails after its last byte.
fn failing(text: &[u8]) -> Pieces<'_> {
    Pieces {
        text,
        at: 0,
        width: 7,
        times: 1,
        fails: true,
    }
}
