//! Tests records of a stream that is read in pieces, and reads that fail.

use super::{Pieces, assert_case};
use cspf_rows::{RecordError, next_record, open_records};
use csv::ByteRecord;
use std::alloc::Global;
use std::test::Fail;

/// The most rows of a text that are read. Each text of `TEXTS` has fewer rows.
const MOST: usize = 5;

/// Texts and their rows. The fields of a row are separated by bars, and each row ends with a
/// semicolon.
const TEXTS: &[(&[u8], &str)] = &[
    (b"", ""),
    (b"\n\r\n\n", ""),
    (b"end,1,2\nend,2,3\n", "end|1|2;end|2|3;"),
    (b"a\r\n\r\n,\n", "a;|;"),
    (b"a,b", "a|b;"),
    (b"\xef\xbb\xbfend,1", "end|1;"),
    (b"\"a,b\"\"c\nd\",e\n", "a,b\"c\nd|e;"),
    (b"\"never, closed\nby a quote", "never, closed\nby a quote;"),
    (b" a , b\nc", " a | b;c;"),
];

/// Adds the fields of a row to `found`, written as in `TEXTS`.
fn add_row(found: &mut String, fields: &ByteRecord) -> Result<(), Fail> {
    for (at, field) in fields.iter().enumerate() {
        if at > 0 {
            found.push_str("|")?;
        }
        found.push_str(std::str::from_utf8(field)?)?;
    }
    found.push_str(";")?;
    Ok(())
}

/// Adds the rows of a text to `found`. The text is read at most `width` bytes at a time.
fn add_rows(
    alloc: Global,
    text: &[u8],
    width: usize,
    fields: &mut ByteRecord,
    found: &mut String,
) -> Result<(), Fail> {
    let reader = Pieces {
        text,
        at: 0,
        width,
        times: 1,
        fails: false,
    };
    let mut rows = open_records(alloc, reader);
    for _row in 0..MOST {
        if !next_record(&mut rows, fields)? {
            break;
        }
        add_row(found, fields)?;
    }
    Ok(())
}

/// Whether a text has these rows, when it is read at most `width` bytes at a time.
fn are_rows(alloc: Global, text: &[u8], width: usize, rows: &str) -> Result<bool, Fail> {
    let mut found = String::new(alloc);
    add_rows(alloc, text, width, &mut ByteRecord::new(alloc), &mut found)?;
    Ok(found.as_str() == rows)
}

#[test]
fn rows_in_pieces(rt: HostRuntime) -> Result<(), Fail> {
    for (text, rows) in TEXTS {
        for width in [1, 2, 1000].as_slice() {
            assert_case(&rt, text, are_rows(rt.alloc(), text, *width, rows)?);
        }
    }
    Ok(())
}

/// Whether the first row is read, and reading the second row fails.
fn fails_in_row_2(alloc: Global, reader: Pieces<'_>) -> bool {
    let mut rows = open_records(alloc, reader);
    let mut fields = ByteRecord::new(alloc);
    next_record(&mut rows, &mut fields) == Ok(true)
        && next_record(&mut rows, &mut fields) == Err(RecordError::Device)
}

#[test]
fn read_faults(rt: HostRuntime) {
    let text = b"end,1,2\nend,2";
    let reader = Pieces {
        text,
        at: 0,
        width: 3,
        times: 1,
        fails: true,
    };
    assert_case(&rt, text, fails_in_row_2(rt.alloc(), reader));
    let fault = RecordError::from(csv::Error::out_of_memory());
    assert_case(&rt, b"out of memory", fault == RecordError::Memory);
}
