//! Tests reply lines that begin with a head, and lines without a head. A head is the id of the
//! request and the version.

use super::assert_case;
use cspf_ero::reply_head;

/// Reply lines. Each has the id and the version with which it begins.
const HEADS: &[(&[u8], u64, u32)] = &[
    (b"ask 7 v1 none", 7, 1),
    (b"ask 0 v0 ", 0, 0),
    (b"ask 7 v1  v2 none\n", 7, 1),
    (
        b"ask 18446744073709551615 v4294967295 unknown-to",
        u64::MAX,
        u32::MAX,
    ),
];

/// The index of the first line of `HEADS` whose id and version `reply_head` doesn't read, or the
/// number of lines if it reads all of them.
fn count_heads() -> usize {
    for (at, (line, id, version)) in HEADS.iter().enumerate() {
        match reply_head(line) {
            Some(head) if head.id == *id && head.version == *version => {}
            _ => return at,
        }
    }
    HEADS.len()
}

#[test]
fn heads_are_read(rt: HostRuntime) {
    let first = count_heads();
    assert_case(&rt, "heads up to", first, first == HEADS.len());
}

const OTHERS: &[&[u8]] = &[
    b"",
    b"hello",
    b"ask",
    b"ask 7",
    b"ask 7 ",
    b"ask 7 v1",
    b"ask 7 1 none",
    b"ask  7 v1 none",
    b" ask 7 v1 none",
    b"asks 7 v1 none",
    b"ask 07 v1 none",
    b"ask 7 v01 none",
    b"ask +7 v1 none",
    b"ask 7 v none",
    b"ask 7 v1\tnone",
    b"ask 18446744073709551616 v1 none",
    b"ask 7 v4294967296 none",
];

/// The index of the first line of `OTHERS` in which `reply_head` finds an id and a version, or the
/// number of lines if there is no such line.
fn count_others() -> usize {
    for (at, line) in OTHERS.iter().enumerate() {
        if reply_head(line).is_some() {
            return at;
        }
    }
    OTHERS.len()
}

#[test]
fn other_lines_have_none(rt: HostRuntime) {
    let first = count_others();
    assert_case(&rt, "other lines up to", first, first == OTHERS.len());
}
