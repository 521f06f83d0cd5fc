//! Compares the lines for refused rows, refused batches and open changes with texts written by
//! hand.

use crate::tests::assert_case;
use cspf_addr::{Addr, HopsError};
use cspf_ero::EroError;
use cspf_model::{Change, Refusal};
use cspf_rows::{HopsFault, RowError};
use cspf_stream::{BatchRefusal, OpenChanges, StreamLine, refused_row};
use std::alloc::{AllocError, Global};

#[test]
fn lines_of_refused_rows(rt: HostRuntime) -> Result<(), AllocError> {
    let wanted: [(u64, RowError, &[u8]); 6] = [
        (1, RowError::Kind, b"row 1 refused: kind\n"),
        (
            12,
            RowError::Number { field: 10 },
            b"row 12 refused: number 10\n",
        ),
        (3, RowError::SelfLink, b"row 3 refused: self-link\n"),
        (
            4,
            RowError::Hops(HopsFault::Text(HopsError::BadHop { at: 2 })),
            b"row 4 refused: hops 2\n",
        ),
        (
            5,
            RowError::Hops(HopsFault::Ero(EroError::Short)),
            b"row 5 refused: hops ero short\n",
        ),
        (
            18_446_744_073_709_551_615,
            RowError::Fields,
            b"row 18446744073709551615 refused: fields\n",
        ),
    ];
    for (place, error, line) in wanted {
        assert_case(&rt, line, is_line_of(rt.alloc(), place, error, line)?);
    }
    Ok(())
}

/// Whether `line` is the line for the row with the number `place`, when this row is refused with
/// this error.
fn is_line_of(alloc: Global, place: u64, error: RowError, line: &[u8]) -> Result<bool, AllocError> {
    let found = refused_row(alloc, place, error)?;
    Ok(found.as_slice() == line)
}

#[test]
fn lines_of_streams(rt: HostRuntime) -> Result<(), AllocError> {
    let unfit = BatchRefusal::Unfit(Refusal::Absent { at: 3 });
    let cut = BatchRefusal::Journal { written: 40 };
    let unkept = BatchRefusal::Keep { written: 50 };
    let wanted: [(StreamLine, &[u8]); 6] = [
        (StreamLine::Version { version: 7 }, b"version 7\n"),
        (
            StreamLine::RefusedBatch {
                number: 8,
                refusal: unfit,
            },
            b"batch 8 refused: absent 3\n",
        ),
        (
            StreamLine::RefusedBatch {
                number: 9,
                refusal: cut,
            },
            b"batch 9 refused: journal 40\n",
        ),
        (
            StreamLine::RefusedBatch {
                number: 10,
                refusal: unkept,
            },
            b"batch 10 refused: keep 50\n",
        ),
        (StreamLine::Unended { count: 9 }, b"unended 9\n"),
        (StreamLine::TooManyRows, b"too many rows\n"),
    ];
    for (line, text) in wanted {
        assert_case(&rt, text, has_text(rt.alloc(), line, text)?);
    }
    Ok(())
}

fn has_text(alloc: Global, line: StreamLine, text: &[u8]) -> Result<bool, AllocError> {
    let found = line.bytes(alloc)?;
    Ok(found.as_slice() == text)
}

/// Makes `count` open changes, but at most nine. No `end` row follows them. Each of them marks a
/// router as without transit.
fn opened(alloc: Global, count: u32) -> Result<OpenChanges, AllocError> {
    let mut changes = OpenChanges::new(alloc);
    for _ in 0..count {
        if changes.count < 9 {
            changes.add(Change::Node {
                router: Addr::new(1),
                transit: false,
            })?;
        }
    }
    Ok(changes)
}

/// Whether `text` is the last line of a stream that ends with `count` open changes: changes that no
/// `end` row follows. After the changes are cleared, the last line also has to be empty.
fn has_last_line(alloc: Global, count: u32, text: &[u8]) -> Result<bool, AllocError> {
    let mut changes = opened(alloc, count)?;
    let line = changes.last_line(alloc)?;
    changes.clear();
    let cleared = changes.last_line(alloc)?;
    Ok(line.as_slice() == text && cleared.is_empty())
}

/// The last line has the number of open changes at the end of a stream: changes that no `end` row
/// follows. It is empty if no change is open.
#[test]
fn lines_of_open_changes(rt: HostRuntime) -> Result<(), AllocError> {
    let none = has_last_line(rt.alloc(), 0, b"")?;
    let one = has_last_line(rt.alloc(), 1, b"unended 1\n")?;
    let two = has_last_line(rt.alloc(), 2, b"unended 2\n")?;
    assert_case(&rt, b"unended", none && one && two);
    Ok(())
}
