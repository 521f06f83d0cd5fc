//! Tests live runs in which writing the lines or writing the journal fails. A live run applies
//! batches while workers answer requests.

use super::{Narrow, bytes_of, cut, cut_bytes, numbers_of};
use cspf_serve::{NoGate, RunError, run_live_rows};
use std::alloc::{AllocError, Global};
use std::sync::Wait;
use std::thread::Threads;

/// The text that is written to the journal for a batch whose only change is the row `P`, which sets
/// a link.
const TEXT: &[u8] =
    b"put,1.1.1.1,10.0.12.1,2.2.2.2,10.0.12.2,10,0x00000001,1000,1000,1000,1000,1000,1000,1000,1000\nend,1,1\n";

/// The texts that are written to the journal for a batch whose only change is the row `P`, and for
/// an empty batch.
const BOTH: &[u8] =
    b"put,1.1.1.1,10.0.12.1,2.2.2.2,10.0.12.2,10,0x00000001,1000,1000,1000,1000,1000,1000,1000,1000\nend,1,1\nend,2,0\n";

/// Whether a run over two batches writes these lines and returns this status. The run's journal
/// accepts `most` bytes. In the end it has to have exactly the first `most` bytes of the batches'
/// text.
fn fills_up<T: Threads + Wait + Sync>(
    rt: &T,
    alloc: Global,
    updates: &[u8],
    most: usize,
    lines: &[u8],
    status: u8,
) -> bool {
    let none: &[u8] = b"";
    let narrow = Narrow {
        held: Vec::new(alloc),
        width: 7,
        most,
    };
    let mut held = Vec::new(alloc);
    let (found, journal) = run_live_rows(rt, alloc, updates, none, narrow, &mut held, 2, &NoGate);
    let Narrow { held: kept, .. } = journal;
    found == Ok(status)
        && held.as_slice() == lines
        && kept.len() == most
        && BOTH.starts_with(kept.as_slice())
}

/// One fault per line: the number of bytes that a journal accepts, and then the status and the
/// lines of a run over two batches with this journal.
const FAULTS: &str = "\
0 2 > applied 0|batch 1 refused: journal 0|
5 2 > applied 0|batch 1 refused: journal 5|
101 2 > applied 0|batch 1 refused: journal 101|
102 2 > applied 1|batch 2 refused: journal 0|
109 2 > applied 1|batch 2 refused: journal 7|
110 0 > applied 2|
";

/// Whether a run over two batches has the fault in this line of the table.
fn has_fault<T: Threads + Wait + Sync>(
    rt: &T,
    alloc: Global,
    updates: &[u8],
    line: &str,
) -> Result<bool, AllocError> {
    let (numbers, fields) = cut(line);
    let (lines, _) = cut_bytes(alloc, fields)?;
    let [most, status, ..] = numbers_of(numbers);
    let status = if status == 2 { 2 } else { 0 };
    Ok(fills_up(rt, alloc, updates, most as usize, &lines, status))
}

#[test]
fn faults_of_the_journal(rt: HostRuntime) -> Result<(), AllocError> {
    let updates = bytes_of(rt.alloc(), b"P\nend,1,1\nend,2,0\n")?;
    for line in FAULTS.lines() {
        assert!(rt; has_fault(&rt, rt.alloc(), &updates, line)?, "{line}");
    }
    Ok(())
}

/// Runs over one batch, with a writer of lines that accepts `most` bytes. Returns whether the run
/// fails, has written a prefix of the line, and has the batch in the journal.
fn keeps_the_journal<T: Threads + Wait + Sync>(
    rt: &T,
    alloc: Global,
    updates: &[u8],
    most: usize,
) -> bool {
    let none: &[u8] = b"";
    let mut writer = Narrow {
        held: Vec::new(alloc),
        width: 4,
        most,
    };
    let journal: Vec<u8> = Vec::new(alloc);
    let (found, journal) = run_live_rows(
        rt,
        alloc,
        updates,
        none,
        journal,
        &mut writer,
        1,
        &NoGate,
    );
    let Narrow { held, .. } = writer;
    found == Err(RunError::Device)
        && journal.as_slice() == TEXT
        && held.len() == most
        && b"applied 1\n".starts_with(held.as_slice())
}

/// A fault of the writer of lines ends the run, and the journal is returned. The number of bytes
/// that the writer accepts before doesn't matter.
#[test]
fn faults_of_the_lines(rt: HostRuntime) -> Result<(), AllocError> {
    let updates = bytes_of(rt.alloc(), b"P\nend,1,1\n")?;
    for most in [0, 1, 9] {
        assert!(rt;
            keeps_the_journal(&rt, rt.alloc(), updates.as_slice(), most),
            "{most}"
        );
    }
    Ok(())
}
