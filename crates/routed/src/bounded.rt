//! Reads a client's rows within bounds: no line may be too long, and no line may have a quotation
//! mark. In a quoted field a line feed wouldn't end the row.
ghost use Rattle.std.specs.Prelude.{◌≤◌, length};

use std::alloc::{AllocError, Global};
use std::io::{ErrorKind, Read};
use std::sync::Arc;
use std::sync::atomic::{AtomicU8, Ordering};
use std::{fmt, io};

/// The most bytes of a line. The line feed or carriage return that ends the line isn't counted.
const MOST_LINE_BYTES: usize = 1_048_576;

/// Why no more of a client's rows are read.
#[derive(Clone, Copy)]
pub enum Unfit {
    /// A line has more than `MOST_LINE_BYTES` bytes.
    Line,
    /// A row has a quotation mark.
    Quote,
}

impl fmt::Display for Unfit {
    fn fmt<W: fmt::Write>(&self, f: &mut fmt::Formatter<W>) -> fmt::Result {
        match self {
            Unfit::Line => write!(f, "a line of more than {MOST_LINE_BYTES} bytes"),
            Unfit::Quote => f.write_str("a quotation mark"),
        }
    }
}

/// Why a reader stopped, or `NO_CAUSE`. The thread that reads the rows sets this value, and another
/// thread reads it.
pub type Cause = Arc<AtomicU8, Global>;

/// The reader didn't stop.
const NO_CAUSE: u8 = 0;

/// The reader stopped at a line that is too long.
const LINE: u8 = 1;

/// The reader stopped at a quotation mark.
const QUOTE: u8 = 2;

/// Why a reader stopped, or `None` if it didn't stop.
pub(crate) fn unfit_of(cause: &Cause) -> Option<Unfit> {
    match cause.load(Ordering::SeqCst) {
        LINE => Some(Unfit::Line),
        QUOTE => Some(Unfit::Quote),
        _ => None,
    }
}

/// A reader that passes on the bytes of rows. Its reads fail at a quotation mark, and at the byte
/// that makes a line too long.
#[derive(Drop)]
pub struct Bounded<R> {
    rows: R,
    /// The number of bytes of the current line that were passed on.
    length: usize,
    cause: Cause,
}

impl<R: Drop> Bounded<R> {
    /// Returns a reader that has read nothing yet, and the value by which another thread sees why
    /// the reader stopped.
    pub(crate) fn new(alloc: Global, rows: R) -> Result<(Bounded<R>, Cause), AllocError> {
        let cause = Arc::new(alloc, AtomicU8::new(NO_CAUSE))?;
        let bounded = Bounded {
            rows,
            length: 0,
            cause: Arc::try_clone(&cause)?,
        };
        Ok((bounded, cause))
    }
}

impl<R: Drop> Bounded<R> {
    /// As `new`, but uses the memory of the value by which another thread saw why an earlier reader
    /// stopped.
    pub(crate) fn again(earlier: &Cause, rows: R) -> Result<(Bounded<R>, Cause), AllocError> {
        let cause = Arc::try_clone(earlier)?;
        let bounded = Bounded {
            rows,
            length: 0,
            cause: Arc::try_clone(earlier)?,
        };
        cause.store(NO_CAUSE, Ordering::SeqCst);
        Ok((bounded, cause))
    }
}

impl<R> Bounded<R> {
    /// If the byte may be passed on, counts it and returns `NO_CAUSE`. Otherwise returns why the
    /// byte isn't passed on.
    fn take(&mut self, byte: u8) -> u8 {
        match byte {
            b'"' => return QUOTE,
            b'\n' | b'\r' => self.length = 0,
            _ if self.length >= MOST_LINE_BYTES => return LINE,
            _ => self.length = self.length.saturating_add(1),
        }
        NO_CAUSE
    }

    /// Returns the number of these bytes that may be passed on, up to the first byte that may not.
    /// If there is such a byte, sets the cause for which the reader stops.
    fn take_all(&mut self, bytes: &[u8]) -> usize
        ensures { result ≤ length bytes.now }
    {
        for index in 0..bytes.len() {
            let cause = self.take(bytes[index]);
            if cause != NO_CAUSE {
                self.cause.store(cause, Ordering::SeqCst);
                return index;
            }
        }
        bytes.len()
    }
}

impl<R: Read> Read for Bounded<R> {
    fn read(&mut self, buf: &mut [u8]) -> io::Result<usize> {
        if unfit_of(&self.cause).is_none() {
            let got = self.rows.read(buf)?;
            let taken = self.take_all(&buf[..got]);
            if taken > 0 || got == 0 {
                return Ok(taken);
            }
        }
        Err(io::Error::from(ErrorKind::InvalidData))
    }
}
