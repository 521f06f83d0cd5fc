//! Tests runs over a journal and requests whose input and output is read and written in pieces. In
//! some of these runs, reading the inputs or writing the lines fails.

use super::{Narrow, bytes_of, in_pieces};
use cspf_serve::{NoGate, RunError, run_batch};
use std::alloc::{AllocError, Global};
use std::io::{Read, Write};
use std::sync::Wait;
use std::thread::Threads;

/// Three batches. The first batch adds six links by `put` changes, and the second adds two links.
/// Each link has its reverse among them. The third batch sets one link again and removes one link.
const JOURNAL: &[u8] =
    b"put,1.1.1.1,10.0.1.1,3.3.3.3,10.0.1.3,1,0x1,F\nput,1.1.1.1,10.0.2.1,10.9.0.1,10.0.2.2,10,0x1,F\nput,1.1.1.1,10.0.3.1,10.9.0.2,10.0.3.2,2,0x1,F\nput,3.3.3.3,10.0.4.3,10.9.0.1,10.0.4.1,1,0x1,F\nput,10.9.0.1,10.0.5.1,4.4.4.4,10.0.5.4,1,0x1,F\nput,10.9.0.2,10.0.6.2,10.9.0.1,10.0.6.1,3,0x1,F\nput,3.3.3.3,10.0.1.3,1.1.1.1,10.0.1.1,1,0x1,O\nput,10.9.0.1,10.0.2.2,1.1.1.1,10.0.2.1,10,0x1,O\nput,10.9.0.2,10.0.3.2,1.1.1.1,10.0.3.1,2,0x1,O\nput,10.9.0.1,10.0.4.1,3.3.3.3,10.0.4.3,1,0x1,O\nput,4.4.4.4,10.0.5.4,10.9.0.1,10.0.5.1,1,0x1,O\nput,10.9.0.1,10.0.6.1,10.9.0.2,10.0.6.2,3,0x1,O\nend,1,12\nput,2.2.2.2,10.0.7.2,1.1.1.1,10.0.7.1,5,0x2,F\nput,4.4.4.4,10.0.8.4,2.2.2.2,10.0.8.2,5,0x1,F\nput,1.1.1.1,10.0.7.1,2.2.2.2,10.0.7.2,5,0x2,O\nput,2.2.2.2,10.0.8.2,4.4.4.4,10.0.8.4,5,0x1,O\nend,2,4\ndrop,3.3.3.3,10.0.4.3\nput,1.1.1.1,10.0.2.1,10.9.0.1,10.0.2.2,3,0x1,F\nend,3,2\n";

/// Requests for routes over the links of `JOURNAL`.
const REQUESTS: &[u8] =
    b"ask,1,1.1.1.1,4.4.4.4,0,1,Z,10.9.0.0/16s\nask,2,1.1.1.1,4.4.4.4,0,1,Z,\nask,3,1.1.1.1,4.4.4.4,0,1,Z,10.9.0.2/32l\nask,4,2.2.2.2,4.4.4.4,7,1000,0x2,0x0,0x0,\nask,5,2.2.2.2,10.9.0.1,7,1000,0x0,0x2,0x0,\nask,6,5.5.5.5,1.1.1.1,0,1,Z,\nask,7,1.1.1.1,3.3.3.3,0,1001,Z,\nask,8,2.2.2.2,1.1.1.1,0,1000,0x0,0x2,0x0,\n";

/// The lines that a run over `JOURNAL` and `REQUESTS` writes.
const LINES: &[u8] =
    b"version 1\nversion 2\nversion 3\nask 1 v3 route cost=4 hops=2 again=no ero=0014140101080a000202200001080a0005042000\nask 2 v3 route cost=4 hops=2 again=no ero=0014140101080a000202200001080a0005042000\nask 3 v3 route cost=6 hops=3 again=no ero=001c140101080a000302200001080a000601200001080a0005042000\nask 4 v3 none\nask 5 v3 none\nask 6 v3 unknown-from\nask 7 v3 none\nask 8 v3 route cost=5 hops=1 again=no ero=000c140101080a0007012000\n";

/// The bytes of the journal and of the requests.
fn inputs(alloc: Global) -> Result<(Vec<u8>, Vec<u8>), AllocError> {
    let journal = bytes_of(alloc, JOURNAL)?;
    Ok((journal, bytes_of(alloc, REQUESTS)?))
}

/// The result of a run over a journal and requests, and the bytes that the run's writer has. The
/// writer accepts at most `width` bytes in each write, and `most` bytes in all.
fn run_narrow<R: Read + Drop, Q: Read + Drop, T: Threads + Wait + Sync>(
    rt: &T,
    alloc: Global,
    journal: R,
    requests: Q,
    width: usize,
    most: usize,
) -> (Result<u8, RunError>, Vec<u8>) {
    let mut writer = Narrow {
        held: Vec::new(alloc),
        width,
        most,
    };
    let found = run_batch(rt, alloc, journal, requests, &mut writer, 2, false, &NoGate);
    let Narrow { held, .. } = writer;
    (found, held)
}

/// Whether a run over the journal and the requests writes `LINES`, when it reads and writes only a
/// few bytes at a time.
fn is_answered_in_pieces<T: Threads + Wait + Sync>(
    rt: &T,
    alloc: Global,
    journal: &[u8],
    requests: &[u8],
) -> bool {
    let kept = in_pieces(journal, 1, usize::MAX);
    let asked = in_pieces(requests, 3, usize::MAX);
    let (found, held) = run_narrow(rt, alloc, kept, asked, 2, usize::MAX);
    found == Ok(0) && held.as_slice() == LINES
}

#[test]
fn runs_in_pieces(rt: HostRuntime) -> Result<(), AllocError> {
    let (journal, requests) = inputs(rt.alloc())?;
    assert!(rt; is_answered_in_pieces(&rt, rt.alloc(), &journal, &requests));
    Ok(())
}

/// Whether a run writes nothing when reading fails: its journal after `kept` bytes, or its requests
/// after `asked` bytes.
fn stops_at_a_read<T: Threads + Wait + Sync>(
    rt: &T,
    alloc: Global,
    (journal, requests): (&[u8], &[u8]),
    (kept, asked): (usize, usize),
) -> bool {
    let journal = in_pieces(journal, 100, kept);
    let requests = in_pieces(requests, 100, asked);
    let (found, held) = run_narrow(rt, alloc, journal, requests, 100, usize::MAX);
    found == Err(RunError::Device) && held.is_empty()
}

/// Reading the journal or the requests fails after some bytes.
#[test]
fn faults_of_the_inputs(rt: HostRuntime) -> Result<(), AllocError> {
    let (journal, requests) = inputs(rt.alloc())?;
    let (input, all) = ((journal.as_slice(), requests.as_slice()), usize::MAX);
    for last in [0, 1, 300] {
        assert!(rt;
            stops_at_a_read(&rt, rt.alloc(), input, (last, all))
                && stops_at_a_read(&rt, rt.alloc(), input, (all, last)),
            "after {last}"
        );
    }
    Ok(())
}

/// Whether a run over a journal and requests fails when its writer accepts only `most` bytes, and
/// has written a prefix of the lines by then.
fn stops_at_a_write<T: Threads + Wait + Sync>(
    rt: &T,
    alloc: Global,
    (journal, requests): (&[u8], &[u8]),
    most: usize,
) -> bool {
    let (found, held) = run_narrow(rt, alloc, journal, requests, 4, most);
    found == Err(RunError::Device) && held.len() == most && LINES.starts_with(held.as_slice())
}

/// Whether a run fails when the journal has a row after its batches, and the writer doesn't accept
/// the whole line that refuses the journal.
fn stops_at_a_torn_line<T: Threads + Wait + Sync>(rt: &T, alloc: Global, requests: &[u8]) -> bool {
    let torn: &[u8] = b"x\n";
    let (found, _held) = run_narrow(rt, alloc, torn, requests, 100, 5);
    found == Err(RunError::Device)
}

#[test]
fn faults_of_the_lines(rt: HostRuntime) -> Result<(), AllocError> {
    let (journal, requests) = inputs(rt.alloc())?;
    let input = (journal.as_slice(), requests.as_slice());
    for most in [0, 9, 10, 30, 31, 200] {
        assert!(rt;
            stops_at_a_write(&rt, rt.alloc(), input, most),
            "after {most}"
        );
    }
    assert!(rt; stops_at_a_torn_line(&rt, rt.alloc(), &requests));
    Ok(())
}
