//! Tests runs over rows with the most links, marked routers and changes that are allowed, and with
//! more. A marked router carries no transit traffic. Also tests the counts that a run returns, long
//! rows, and the texts of refusals.

use super::scripts::is_answered;
use cspf_model::Refusal;
use cspf_serve::BatchRefusal;
use std::alloc::{AllocError, Global};
use std::fmt::Write;

/// Appends a `put` row, which adds or replaces a link. The number is the link's local address.
fn put_link(text: &mut String, number: u32) -> Result<(), AllocError> {
    let [a, b, c, d] = number.to_be_bytes();
    write_put(text, [a, b, c, d])
}

/// Appends a `put` row, which adds or replaces the link with this local address.
fn write_put(text: &mut String, [a, b, c, d]: [u8; 4]) -> Result<(), AllocError> {
    write!(
        text,
        "put,1.1.1.1,{a}.{b}.{c}.{d},2.2.2.2,10.0.12.2,10,0x00000001,1,1,1,1,1,1,1,1\n"
    )
}

/// Makes a script (rows of changes, batches and requests) of parts. A part has two numbers and a
/// text. It sets one link for each number from the first number up to, but without, the second
/// number. The number is the link's local address. The part's text follows these rows.
fn script_of(alloc: Global, parts: &[(u32, u32, &str)]) -> Result<String, AllocError> {
    let mut text = String::new(alloc);
    for part in parts {
        for number in part.0..part.1 {
            put_link(&mut text, number)?;
        }
        text.push_str(part.2)?;
    }
    Ok(text)
}

/// Whether a run over a script (rows of changes, batches and requests) writes these lines and has
/// these counts.
fn is_run(alloc: Global, script: &str, lines: &str, counts: [u32; 4]) -> bool {
    let all = usize::MAX;
    is_answered(alloc, script.as_bytes(), all, all, lines.as_bytes(), counts)
}

/// Parts of a script (rows of changes, batches and requests). The first batch has too many changes,
/// and the next four batches fill the table with links. After them, a batch with one more link is
/// refused if it doesn't also remove a link.
const LINKS: [(u32, u32, &str); 7] = [
    (0, 4097, "end,1,4097\n"),
    (0, 4096, "end,1,4096\n"),
    (4096, 8192, "end,2,4096\n"),
    (8192, 12_288, "end,3,4096\n"),
    (12_288, 16_384, "end,4,4096\n"),
    (16_384, 16_385, "end,5,1\ndrop,1.1.1.1,0.0.0.0\n"),
    (16_384, 16_385, "end,5,2\n"),
];

const LINES_OF_LINKS: &str =
    "batch 1 refused: long\nversion 1\nversion 2\nversion 3\nversion 4\nbatch 5 refused: full\nversion 5\n";

#[test]
fn as_many_links_as_are_kept(rt: HostRuntime) -> Result<(), AllocError> {
    let script = script_of(rt.alloc(), &LINKS)?;
    let counts = [20_491, 5, 0, 2];
    assert!(rt; is_run(rt.alloc(), script.as_str(), LINES_OF_LINKS, counts));
    Ok(())
}

/// Appends a row that marks the router whose address has this number. The router then carries no
/// transit traffic.
fn write_mark(text: &mut String, number: u32) -> Result<(), AllocError> {
    let [a, b, c, d] = number.to_be_bytes();
    write!(text, "node,{a}.{b}.{c}.{d},0\n")
}

/// The rows of three batches. The first batch marks the most routers that a table may mark, and the
/// second batch marks one more. The third batch marks one router in place of another.
fn script_of_marks(alloc: Global) -> Result<String, AllocError> {
    let mut text = String::new(alloc);
    for number in 0..1024 {
        write_mark(&mut text, number)?;
    }
    text.push_str(
        "end,1,1024\nnode,0.0.4.0,0\nend,2,1\nnode,0.0.4.0,0\nnode,0.0.0.0,1\nend,2,2\n",
    )?;
    Ok(text)
}

#[test]
fn as_many_marks_as_are_kept(rt: HostRuntime) -> Result<(), AllocError> {
    let script = script_of_marks(rt.alloc())?;
    let lines = "version 1\nbatch 2 refused: marks\nversion 2\n";
    assert!(rt; is_run(rt.alloc(), script.as_str(), lines, [1030, 2, 0, 1]));
    Ok(())
}

/// Three parts of a script (rows of changes, batches and requests), each with more changes than a
/// batch may have. The `end` row of the first part has a wrong count, the second `end` row has the
/// right count, and the third part has no `end` row.
const CHANGES: [(u32, u32, &str); 3] = [
    (0, 5000, "end,1,4097\n"),
    (0, 5000, "end,1,5000\n"),
    (0, 5000, ""),
];

const LINES_OF_CHANGES: &str =
    "batch 1 refused: counted 5000\nbatch 1 refused: long\nunended 5000\n";

#[test]
fn counts_past_what_is_kept(rt: HostRuntime) -> Result<(), AllocError> {
    let script = script_of(rt.alloc(), &CHANGES)?;
    let counts = [15_002, 0, 0, 3];
    assert!(rt; is_run(rt.alloc(), script.as_str(), LINES_OF_CHANGES, counts));
    Ok(())
}

/// Appends this many copies of a text.
fn push_copies(text: &mut String, part: &str, count: u32) -> Result<(), AllocError> {
    for _ in 0..count {
        text.push_str(part)?;
    }
    Ok(())
}

/// A row of 1,001 fields, a row with a number of a million digits, and an `end` row.
fn long_script(alloc: Global) -> Result<String, AllocError> {
    let mut text = String::new(alloc);
    push_copies(&mut text, "end,", 1000)?;
    text.push_str("\nend,")?;
    push_copies(&mut text, "1111111111111111", 62_500)?;
    text.push_str(",0\nend,1,0\n")?;
    Ok(text)
}

#[test]
fn long_rows(rt: HostRuntime) -> Result<(), AllocError> {
    let script = long_script(rt.alloc())?;
    let lines = "row 1 refused: fields\nrow 2 refused: number 2\nversion 1\n";
    assert!(rt; is_run(rt.alloc(), script.as_str(), lines, [3, 1, 0, 2]));
    Ok(())
}

/// Whether a refusal is printed as this text.
fn has_word(alloc: Global, refusal: BatchRefusal, word: &str) -> Result<bool, AllocError> {
    let found = refusal.to_string(alloc)?;
    Ok(found.as_str() == word)
}

#[test]
fn words_of_refusals(rt: HostRuntime) -> Result<(), AllocError> {
    for (refusal, word) in [
        (BatchRefusal::Exhausted, "exhausted"),
        (BatchRefusal::WrongNumber { expected: 2 }, "expected 2"),
        (BatchRefusal::WrongCount { counted: 0 }, "counted 0"),
        (BatchRefusal::Unfit(Refusal::TooLong), "long"),
        (
            BatchRefusal::Unfit(Refusal::Duplicate { at: 2 }),
            "duplicate 2",
        ),
        (
            BatchRefusal::Unfit(Refusal::Absent { at: 4096 }),
            "absent 4096",
        ),
        (BatchRefusal::Unfit(Refusal::Full), "full"),
        (BatchRefusal::Unfit(Refusal::TooManyRouters), "routers"),
        (BatchRefusal::Unfit(Refusal::TooManyMarks), "marks"),
    ] {
        assert!(rt; has_word(rt.alloc(), refusal, word)?, "{word}");
    }
    Ok(())
}
