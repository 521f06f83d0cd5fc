//! Defines helpers for the tests of runs over rows: scripts (rows of changes, batches and
//! requests), tables, readers that return a text in pieces, and writers that accept a given number
//! of bytes.

mod batches;
mod clients;
mod limits;
mod live_rows;
mod memory;
mod scripts;
mod workers;

use std::alloc::{AllocError, Global};
use std::io;
use std::io::{ErrorKind, Read, Write};

/// The text that a byte of a script (rows of changes, batches and requests) represents. `P` is the
/// row that sets the link from 1.1.1.1 to 2.2.2.2 (a `put` change), and `Q` the row that sets its
/// reverse, with no bandwidth. `F` is eight bandwidths of 1000, and `O` eight of 0. `Z` is three
/// masks without a group, `H` seven hops, and `B` a byte order mark. `X` and `Y` are bytes that
/// aren't UTF-8, and `N` is the byte 0. `R` is a carriage return, `|` a line feed, and `_` nothing.
fn spelled(byte: &u8) -> &[u8] {
    match *byte {
        b'P' => {
            b"put,1.1.1.1,10.0.12.1,2.2.2.2,10.0.12.2,10,0x1,1000,1000,1000,1000,1000,1000,1000,1000"
        }
        b'Q' => b"put,2.2.2.2,10.0.12.2,1.1.1.1,10.0.12.1,10,0x1,0,0,0,0,0,0,0,0",
        b'F' => b"1000,1000,1000,1000,1000,1000,1000,1000",
        b'O' => b"0,0,0,0,0,0,0,0",
        b'Z' => b"0x0,0x0,0x0",
        b'H' => b"0.0.0.0/0l 0.0.0.0/0l 0.0.0.0/0l 0.0.0.0/0l 0.0.0.0/0l 0.0.0.0/0l 0.0.0.0/0l",
        b'B' => b"\xef\xbb\xbf",
        b'X' => b"\xff\xfe",
        b'Y' => b"\xc3",
        b'N' => b"\0",
        b'R' => b"\r",
        b'|' => b"\n",
        b'_' => b"",
        _ => std::slice::from_ref(byte),
    }
}

/// The bytes of a script, which is given in the short spelling of `spelled`.
fn bytes_of(alloc: Global, script: &[u8]) -> Result<Vec<u8>, AllocError> {
    let mut bytes = Vec::new(alloc);
    for byte in script {
        bytes.extend_from_slice(spelled(byte))?;
    }
    Ok(bytes)
}

/// Splits a line of a table into its first field and the other fields.
fn cut(line: &str) -> (&str, &str) {
    line.split_once(" > ").unwrap_or((line, ""))
}

/// Splits a line of a table into the bytes of its first field and the other fields.
fn cut_bytes(alloc: Global, line: &str) -> Result<(Vec<u8>, &str), AllocError> {
    let (field, others) = cut(line);
    Ok((bytes_of(alloc, field.as_bytes())?, others))
}

/// The numbers of a field: at most four numbers, separated by single spaces.
fn numbers_of(field: &str) -> [u32; 4] {
    let mut numbers = [0u32; 4];
    let mut index = 0usize;
    for byte in field.as_bytes() {
        if *byte == b' ' {
            index = index.saturating_add(1);
        } else if let Some(number) = numbers.get_mut(index) {
            let digit = byte.wrapping_sub(b'0') as u32;
            *number = number.wrapping_mul(10).wrapping_add(digit);
        }
    }
    numbers
}

/// A reader that returns the bytes of `rest`, and then `left` copies of `text`. Each read returns
/// at most `width` bytes. The reader fails after `last` bytes.
#[derive(Drop)]
struct Pieces<'a> {
    text: &'a [u8],
    rest: &'a [u8],
    left: u32,
    width: usize,
    last: usize,
}

/// A reader that returns the text once. Each read returns at most `width` bytes. The reader fails
/// after `last` bytes.
fn in_pieces(text: &[u8], width: usize, last: usize) -> Pieces<'_> {
    Pieces {
        text,
        rest: text,
        left: 0,
        width,
        last,
    }
}

/// A reader that returns `left` copies of a row.
fn copies(text: &[u8], left: u32) -> Pieces<'_> {
    Pieces {
        text,
        rest: &[],
        left,
        width: usize::MAX,
        last: usize::MAX,
    }
}

impl<'a> Read for Pieces<'a> {
    fn read(&mut self, buf: &mut [u8]) -> io::Result<usize> {
        if self.last == 0 {
            return Err(io::Error::from(ErrorKind::BrokenPipe));
        }
        if self.rest.is_empty() && self.left > 0 {
            self.left = self.left.saturating_sub(1);
            self.rest = self.text;
        }
        let rest = self.rest;
        let given = rest.len().min(self.width).min(self.last).min(buf.len());
        buf[..given].copy_from_slice(&rest[..given]);
        self.rest = &rest[given..];
        self.last = self.last.saturating_sub(given);
        Ok(given)
    }
}

/// A writer that accepts at most `width` bytes in each write. It fails when it has `most` bytes.
#[derive(Drop)]
struct Narrow {
    held: Vec<u8>,
    width: usize,
    most: usize,
}

impl Write for Narrow {
    fn write(&mut self, buf: &[u8]) -> io::Result<usize> {
        let free = self.most.saturating_sub(self.held.len());
        if free == 0 {
            return Err(io::Error::from(ErrorKind::StorageFull));
        }
        let taken = buf.len().min(self.width).min(free);
        if self.held.extend_from_slice(&buf[..taken]).is_err() {
            return Err(io::Error::from(ErrorKind::OutOfMemory));
        }
        Ok(taken)
    }

    fn flush(&mut self) -> io::Result<()> {
        Err(io::Error::from(ErrorKind::Unsupported))
    }
}
