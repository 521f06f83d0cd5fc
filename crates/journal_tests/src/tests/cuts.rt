//! Tests rows of the text formats that are cut after each of their bytes.

use super::assert_case;
use super::rows::is_said;
use std::alloc::Global;
use std::process::Abort;
use std::test::Fail;

/// Rows. Each row has a list of pairs: a length in bytes, and words. The words of a pair are for
/// the prefixes of the row that have at least the pair's length and are shorter than the next
/// pair's length. Such a prefix is refused with these words. If the words are `read`, it is read as
/// a row.
const ROWS: &[(&[u8], &[(usize, &str)])] = &[
    (
        b"put,1.1.1.1,10.0.12.1,2.2.2.2,10.0.12.2,10,0x1,1000,1000,1000,1000,1000,1000,1000,1000",
        &[(0, "kind"), (3, "fields"), (82, "number 15"), (83, "read")],
    ),
    (
        b"drop,1.1.1.1,10.0.12.1",
        &[(0, "kind"), (4, "fields"), (13, "address 3"), (22, "read")],
    ),
    (
        b"node,1.1.1.1,0",
        &[(0, "kind"), (4, "fields"), (13, "number 3"), (14, "read")],
    ),
    (
        b"end,1,12",
        &[(0, "kind"), (3, "fields"), (6, "number 3"), (7, "read")],
    ),
    (
        b"ask,7,1.1.1.1,2.2.2.2,0,1000,0x1,0x2,0x4,",
        &[(0, "kind"), (3, "fields"), (41, "read")],
    ),
    (
        b"ask,7,1.1.1.1,2.2.2.2,0,1000,0x1,0x2,0x4,10.9.0.0/16s 4.4.4.4/32l",
        &[
            (0, "kind"),
            (3, "fields"),
            (41, "read"),
            (42, "hops 1"),
            (53, "read"),
            (54, "hops 2"),
            (65, "read"),
        ],
    ),
];

/// The result of reading the first `bytes` bytes of a row: the words of the refusal, or `read`.
/// `words` is the list that this row has in `ROWS`.
fn words_at(words: &[(usize, &'static str)], bytes: usize) -> &'static str {
    let mut found = "";
    for &(from, word) in words {
        if from <= bytes {
            found = word;
        }
    }
    found
}

/// Asserts that each prefix of the row is refused with the words that the row's list has for this
/// prefix. If these words are `read`, the prefix has to be read as a row.
fn assert_cuts(
    rt: &impl Abort,
    alloc: Global,
    (row, words): &(&[u8], &[(usize, &'static str)]),
) -> Result<(), Fail> {
    for bytes in 0..row.len() + 1 {
        let front = row.get(..bytes).unwrap_or(&[]);
        assert_case(rt, front, is_said(alloc, front, words_at(words, bytes))?);
    }
    Ok(())
}

#[test]
fn rows_cut_at_each_byte(rt: HostRuntime) -> Result<(), Fail> {
    for row in ROWS {
        assert_cuts(&rt, rt.alloc(), row)?;
    }
    Ok(())
}

/// A row of 85 bytes that asks for a route. Its hops are an EXPLICIT_ROUTE object of 20 bytes, in
/// hexadecimal digits after the first 41 bytes of the row.
const OBJECT: &[u8] = b"ask,7,1.1.1.1,2.2.2.2,0,1000,0x1,0x2,0x4,\
ero:0014140181080a00000008010108040404042000";

/// The result of reading the first `bytes` bytes of `OBJECT`: the words of the refusal, or `read`.
/// `bytes` is at least 41.
fn words_in_object(bytes: usize) -> &'static str {
    match bytes {
        41 | 85 => "read",
        42..=44 => "hops 1",
        bytes if bytes % 2 == 0 => "hops hex",
        45..=52 => "hops ero short",
        _ => "hops ero length",
    }
}

#[test]
fn objects_cut_at_each_digit(rt: HostRuntime) -> Result<(), Fail> {
    assert_case(&rt, OBJECT, OBJECT.len() == 85);
    for bytes in 41..86 {
        let front = OBJECT.get(..bytes).unwrap_or(&[]);
        let is_said = is_said(rt.alloc(), front, words_in_object(bytes))?;
        assert_case(&rt, front, is_said);
    }
    Ok(())
}
