//! Tests texts that a writer accepts in pieces, and the bytes that the writer has when a write
//! fails.

use super::assert_case;
use cspf_rows::put_all;
use std::alloc::Global;
use std::io;
use std::io::{ErrorKind, Write};

const TEXT: &[u8] = b"version 1\nask 8 v1 none\n";

/// How a write fails: with an error, or by accepting no bytes.
#[derive(Clone, Copy)]
enum Fault {
    Fail(ErrorKind),
    TakeNone,
}

/// A writer that accepts at most `width` bytes in each write. When it has `most` bytes, the next
/// write fails, and all later writes succeed. It counts its writes and flushes.
#[derive(Drop)]
struct Faulty {
    held: Vec<u8>,
    width: usize,
    most: usize,
    fault: Fault,
    has_failed: bool,
    writes: usize,
    flushes: usize,
}

impl Write for Faulty {
    fn write(&mut self, buf: &[u8]) -> io::Result<usize> {
        self.writes = self.writes.saturating_add(1);
        let mut free = self.most.saturating_sub(self.held.len());
        if self.has_failed {
            free = buf.len();
        }
        if free == 0 {
            self.has_failed = true;
            return match self.fault {
                Fault::Fail(kind) => Err(io::Error::from(kind)),
                Fault::TakeNone => Ok(0),
            };
        }
        let taken = buf.len().min(self.width).min(free);
        if self.held.extend_from_slice(&buf[..taken]).is_err() {
            return Err(io::Error::from(ErrorKind::OutOfMemory));
        }
        Ok(taken)
    }

    fn flush(&mut self) -> io::Result<()> {
        self.flushes = self.flushes.saturating_add(1);
        Ok(())
    }
}

/// Whether `put_all` returns `wanted` after `writes` writes and no flush. The writer must then have
/// exactly the first `most` bytes of the text.
fn is_put(
    alloc: Global,
    width: usize,
    most: usize,
    fault: Fault,
    (wanted, writes): (Result<(), usize>, usize),
) -> bool {
    let mut writer = Faulty {
        held: Vec::new(alloc),
        width,
        most,
        fault,
        has_failed: false,
        writes: 0,
        flushes: 0,
    };
    let found = put_all(&mut writer, TEXT);
    let is_front = TEXT.get(..most) == Some(writer.held.as_slice());
    found == wanted && is_front && writer.writes == writes && writer.flushes == 0
}

/// Pairs: the number of bytes that each write accepts, and the number of writes that the whole text
/// then needs.
const WIDTHS: &[(usize, usize)] = &[(1, 24), (3, 8), (23, 2), (24, 1), (25, 1)];

#[test]
fn whole_texts(rt: HostRuntime) {
    for (width, writes) in WIDTHS {
        let wanted = (Ok(()), *writes);
        let is_put = is_put(rt.alloc(), *width, 24, Fault::TakeNone, wanted);
        assert_case(&rt, TEXT, is_put);
    }
    let mut held = Vec::new(rt.alloc());
    let is_empty = put_all(&mut held, b"") == Ok(()) && held.is_empty();
    assert_case(&rt, b"", is_empty);
}

const FAULTS: &[Fault] = &[
    Fault::TakeNone,
    Fault::Fail(ErrorKind::Interrupted),
    Fault::Fail(ErrorKind::WouldBlock),
    Fault::Fail(ErrorKind::TimedOut),
    Fault::Fail(ErrorKind::BrokenPipe),
];

/// Pairs: the number of bytes that the writer accepts before a write fails, and the number of
/// writes, including the failing one. Each write accepts at most three bytes.
const FRONTS: &[(usize, usize)] = &[(0, 1), (3, 2), (7, 4), (21, 8), (23, 9)];

/// After a failed write nothing more is written, though the writer would accept more bytes. Also,
/// nothing is flushed.
#[test]
fn no_write_behind_a_fault(rt: HostRuntime) {
    for fault in FAULTS {
        for (most, writes) in FRONTS {
            let is_put = is_put(rt.alloc(), 3, *most, *fault, (Err(*most), *writes));
            assert_case(&rt, TEXT.get(..*most).unwrap_or(&[]), is_put);
        }
    }
}
