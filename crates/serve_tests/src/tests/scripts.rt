//! Tests runs over a stream of rows: the lines that they write, reads and writes that fail, and the
//! limit on the number of rows.

use super::{Narrow, Pieces, bytes_of, copies, cut, cut_bytes, in_pieces, numbers_of};
use cspf_serve::{SolveError, Summary, run_solve};
use std::alloc::{AllocError, Global};

/// One script (rows of changes, batches and requests) per line. Lines that begin with `#` are
/// comments. A line has the counts of rows, versions, answers and refusals, then the script's rows,
/// and then the lines that the run over these rows writes.
const RUNS: &str = "\
# Nothing.
0 0 0 0 > _ > _
# Changes that no end row takes.
1 0 0 1 > P| > unended 1|
# The bandwidth is exactly met.
4 1 1 0 > P|Q|end,1,2|ask,7,1.1.1.1,2.2.2.2,0,1000,Z,| > version 1|ask 7 v1 route cost=10 hops=1 again=no ero=000c140101080a000c022000|
# One byte per second more.
4 1 1 0 > P|Q|end,1,2|ask,7,1.1.1.1,2.2.2.2,0,1001,Z,| > version 1|ask 7 v1 none|
# Routers that the database doesn't have.
4 1 2 0 > ask,7,1.1.1.1,2.2.2.2,0,0,Z,|P|end,1,1|ask,18446744073709551615,2.2.2.2,3.3.3.3,7,0,Z,| > ask 7 v0 unknown-from|version 1|ask 18446744073709551615 v1 unknown-to|
# An open batch isn't seen.
6 2 2 0 > P|end,1,1|put,2.2.2.2,10.0.12.2,1.1.1.1,10.0.12.1,10,0x1,F|ask,8,2.2.2.2,1.1.1.1,0,1,Z,|end,2,1|ask,9,2.2.2.2,1.1.1.1,0,1,Z,| > version 1|ask 8 v1 none|version 2|ask 9 v2 route cost=10 hops=1 again=no ero=000c140101080a000c012000|
# Fewer links go before smaller addresses.
8 1 1 0 > put,1.1.1.1,10.0.99.1,2.2.2.2,10.0.99.2,20,0x1,F|put,1.1.1.1,10.0.13.1,3.3.3.3,10.0.13.3,10,0x1,F|put,3.3.3.3,10.0.23.3,2.2.2.2,10.0.23.2,10,0x1,F|put,2.2.2.2,10.0.99.2,1.1.1.1,10.0.99.1,20,0x1,O|put,3.3.3.3,10.0.13.3,1.1.1.1,10.0.13.1,10,0x1,O|put,2.2.2.2,10.0.23.2,3.3.3.3,10.0.23.3,10,0x1,O|end,1,6|ask,6,1.1.1.1,2.2.2.2,0,1,Z,| > version 1|ask 6 v1 route cost=20 hops=1 again=no ero=000c140101080a0063022000|
# Addresses compare as numbers.
6 1 1 0 > put,1.1.1.1,10.0.0.10,2.2.2.2,10.0.1.10,5,0x1,F|put,1.1.1.1,10.0.0.9,2.2.2.2,10.0.1.9,5,0x1,F|put,2.2.2.2,10.0.1.10,1.1.1.1,10.0.0.10,5,0x1,O|put,2.2.2.2,10.0.1.9,1.1.1.1,10.0.0.9,5,0x1,O|end,1,4|ask,7,1.1.1.1,2.2.2.2,0,1,Z,| > version 1|ask 7 v1 route cost=5 hops=1 again=no ero=000c140101080a0001092000|
# A link without its reverse.
3 1 1 0 > P|end,1,1|ask,7,1.1.1.1,2.2.2.2,0,1000,Z,| > version 1|ask 7 v1 none|
# A link back between the same routers, over other interfaces.
4 1 1 0 > P|put,2.2.2.2,10.0.21.2,1.1.1.1,10.0.21.1,10,0x1,F|end,1,2|ask,7,1.1.1.1,2.2.2.2,0,1000,Z,| > version 1|ask 7 v1 none|
# The reverse is taken out.
7 2 2 0 > P|Q|end,1,2|ask,7,1.1.1.1,2.2.2.2,0,1000,Z,|drop,2.2.2.2,10.0.12.2|end,2,1|ask,7,1.1.1.1,2.2.2.2,0,1000,Z,| > version 1|ask 7 v1 route cost=10 hops=1 again=no ero=000c140101080a000c022000|version 2|ask 7 v2 none|
# Links of metric 0 both ways.
6 1 1 0 > put,1.1.1.1,10.0.12.1,2.2.2.2,10.0.12.2,0,0x1,F|put,2.2.2.2,10.0.12.2,1.1.1.1,10.0.12.1,0,0x1,F|put,2.2.2.2,10.0.23.2,3.3.3.3,10.0.23.3,0,0x1,F|put,3.3.3.3,10.0.23.3,2.2.2.2,10.0.23.2,0,0x1,O|end,1,4|ask,8,1.1.1.1,3.3.3.3,0,1,Z,| > version 1|ask 8 v1 route cost=0 hops=2 again=no ero=0014140101080a000c02200001080a0017032000|
# The bandwidth of the setup priority counts.
5 1 2 0 > put,1.1.1.1,10.0.12.1,2.2.2.2,10.0.12.2,10,0x1,1000,1000,1000,1000,1000,1000,1000,0|Q|end,1,2|ask,1,1.1.1.1,2.2.2.2,7,1,Z,|ask,2,1.1.1.1,2.2.2.2,0,1,Z,| > version 1|ask 1 v1 none|ask 2 v1 route cost=10 hops=1 again=no ero=000c140101080a000c022000|
# The strict leg may use both covered routers and no third one. A leg may be empty.
16 1 3 0 > put,1.1.1.1,10.0.1.1,3.3.3.3,10.0.1.3,1,0x1,F|put,1.1.1.1,10.0.2.1,10.9.0.1,10.0.2.2,10,0x1,F|put,1.1.1.1,10.0.3.1,10.9.0.2,10.0.3.2,2,0x1,F|put,3.3.3.3,10.0.4.3,10.9.0.1,10.0.4.1,1,0x1,F|put,10.9.0.1,10.0.5.1,4.4.4.4,10.0.5.4,1,0x1,F|put,10.9.0.2,10.0.6.2,10.9.0.1,10.0.6.1,3,0x1,F|put,3.3.3.3,10.0.1.3,1.1.1.1,10.0.1.1,1,0x1,O|put,10.9.0.1,10.0.2.2,1.1.1.1,10.0.2.1,10,0x1,O|put,10.9.0.2,10.0.3.2,1.1.1.1,10.0.3.1,2,0x1,O|put,10.9.0.1,10.0.4.1,3.3.3.3,10.0.4.3,1,0x1,O|put,4.4.4.4,10.0.5.4,10.9.0.1,10.0.5.1,1,0x1,O|put,10.9.0.1,10.0.6.1,10.9.0.2,10.0.6.2,3,0x1,O|end,1,12|ask,1,1.1.1.1,4.4.4.4,0,1,Z,10.9.0.0/16s|ask,2,1.1.1.1,4.4.4.4,0,1,Z,10.9.0.0/16l|ask,3,1.1.1.1,4.4.4.4,0,1,Z,1.1.1.1/32s 10.9.0.0/16s| > version 1|ask 1 v1 route cost=6 hops=3 again=no ero=001c140101080a000302200001080a000601200001080a0005042000|ask 2 v1 route cost=3 hops=3 again=no ero=001c140101080a000103200001080a000401200001080a0005042000|ask 3 v1 route cost=6 hops=3 again=no ero=001c140101080a000302200001080a000601200001080a0005042000|
# A route that visits a router twice.
6 1 1 0 > P|put,2.2.2.2,10.0.23.2,3.3.3.3,10.0.23.3,10,0x1,F|put,3.3.3.3,10.0.23.3,2.2.2.2,10.0.23.2,10,0x1,F|Q|end,1,4|ask,5,1.1.1.1,2.2.2.2,0,1,Z,3.3.3.3/32l| > version 1|ask 5 v1 route cost=30 hops=3 again=yes ero=001c140101080a000c02200001080a001703200001080a0017022000|
# A hop is met by the address of an inadmissible link.
8 1 1 0 > P|put,2.2.2.2,10.0.23.2,3.3.3.3,10.0.23.3,10,0x1,F|put,2.2.2.2,172.16.0.2,4.4.4.4,172.16.0.4,10,0x1,0,0,0,0,0,0,0,0|Q|put,3.3.3.3,10.0.23.3,2.2.2.2,10.0.23.2,10,0x1,O|put,4.4.4.4,172.16.0.4,2.2.2.2,172.16.0.2,10,0x1,O|end,1,6|ask,6,1.1.1.1,3.3.3.3,0,1,Z,172.16.0.0/12s| > version 1|ask 6 v1 route cost=20 hops=2 again=no ero=0014140101080a000c02200001080a0017032000|
# A route that would pass through a router without transit. It may begin at one.
14 4 3 0 > P|put,2.2.2.2,10.0.23.2,3.3.3.3,10.0.23.3,10,0x1,F|put,3.3.3.3,10.0.23.3,2.2.2.2,10.0.23.2,10,0x1,F|Q|end,1,4|node,1.1.1.1,0|end,2,1|ask,5,1.1.1.1,2.2.2.2,0,1,Z,3.3.3.3/32l|node,2.2.2.2,0|end,3,1|ask,5,1.1.1.1,2.2.2.2,0,1,Z,3.3.3.3/32l|node,2.2.2.2,1|end,4,1|ask,5,1.1.1.1,2.2.2.2,0,1,Z,3.3.3.3/32l| > version 1|version 2|ask 5 v2 route cost=30 hops=3 again=yes ero=001c140101080a000c02200001080a001703200001080a0017022000|version 3|ask 5 v3 none|version 4|ask 5 v4 route cost=30 hops=3 again=yes ero=001c140101080a000c02200001080a001703200001080a0017022000|
# Rows that say whether a router has transit, and two of one router in a batch.
5 0 0 3 > node,1.1.1.1,2|node,1.1.1.1|node,1.1.1.1,0|node,1.1.1.1,1|end,1,2| > row 1 refused: number 3|row 2 refused: fields|batch 1 refused: duplicate 2|
# The route goes round a router without transit, and does so once another batch came.
13 3 1 0 > put,1.1.1.1,10.0.2.1,2.2.2.2,10.0.2.2,1,0x1,F|put,1.1.1.1,10.0.3.1,3.3.3.3,10.0.3.3,1,0x1,F|put,2.2.2.2,10.9.9.9,4.4.4.4,10.0.4.2,1,0x1,F|put,3.3.3.3,10.0.0.1,4.4.4.4,10.0.0.2,1,0x1,F|put,2.2.2.2,10.0.2.2,1.1.1.1,10.0.2.1,1,0x1,O|put,3.3.3.3,10.0.3.3,1.1.1.1,10.0.3.1,1,0x1,O|put,4.4.4.4,10.0.4.2,2.2.2.2,10.9.9.9,1,0x1,O|put,4.4.4.4,10.0.0.2,3.3.3.3,10.0.0.1,1,0x1,O|end,1,8|node,2.2.2.2,0|end,2,1|end,3,0|ask,1,1.1.1.1,4.4.4.4,0,1,Z,| > version 1|version 2|version 3|ask 1 v3 route cost=2 hops=2 again=no ero=0014140101080a000303200001080a0000022000|
# An address that is marked is no router for that.
3 1 1 0 > node,9.9.9.9,0|end,1,1|ask,7,9.9.9.9,1.1.1.1,0,1,Z,| > version 1|ask 7 v1 unknown-from|
# A refused batch leaves database and version, and drops its changes.
7 1 1 2 > P|Q|end,1,2|drop,1.1.1.1,10.0.12.1|end,3,1|ask,7,1.1.1.1,2.2.2.2,0,1000,Z,|end,2,1| > version 1|batch 3 refused: expected 2|ask 7 v1 route cost=10 hops=1 again=no ero=000c140101080a000c022000|batch 2 refused: counted 0|
# A batch that doesn't fit, and the order of refusals: the number, the count, the changes.
12 1 0 4 > P|P|end,1,2|drop,1.1.1.1,10.0.12.1|end,1,1|P|P|end,2,3|P|P|end,1,3|end,1,0| > batch 1 refused: duplicate 2|batch 1 refused: absent 1|batch 2 refused: expected 1|batch 1 refused: counted 2|version 1|
# A link that is taken out is gone.
5 2 1 0 > P|end,1,1|drop,1.1.1.1,10.0.12.1|end,2,1|ask,7,1.1.1.1,2.2.2.2,0,0,Z,| > version 1|version 2|ask 7 v2 unknown-from|
# An object with a subobject that isn't read.
1 0 0 1 > ask,4,1.1.1.1,4.4.4.4,0,1,Z,ero:000c140182080a0a0a0a0801| > row 1 refused: hops ero unsupported|
# An object in place of hops.
14 1 1 0 > put,1.1.1.1,10.0.1.1,3.3.3.3,10.0.1.3,1,0x1,F|put,1.1.1.1,10.0.2.1,10.9.0.1,10.0.2.2,10,0x1,F|put,1.1.1.1,10.0.3.1,10.9.0.2,10.0.3.2,2,0x1,F|put,3.3.3.3,10.0.4.3,10.9.0.1,10.0.4.1,1,0x1,F|put,10.9.0.1,10.0.5.1,4.4.4.4,10.0.5.4,1,0x1,F|put,10.9.0.2,10.0.6.2,10.9.0.1,10.0.6.1,3,0x1,F|put,3.3.3.3,10.0.1.3,1.1.1.1,10.0.1.1,1,0x1,O|put,10.9.0.1,10.0.2.2,1.1.1.1,10.0.2.1,10,0x1,O|put,10.9.0.2,10.0.3.2,1.1.1.1,10.0.3.1,2,0x1,O|put,10.9.0.1,10.0.4.1,3.3.3.3,10.0.4.3,1,0x1,O|put,4.4.4.4,10.0.5.4,10.9.0.1,10.0.5.1,1,0x1,O|put,10.9.0.1,10.0.6.1,10.9.0.2,10.0.6.2,3,0x1,O|end,1,12|ask,1,1.1.1.1,4.4.4.4,0,1,Z,ero:000C140101080A090000107f| > version 1|ask 1 v1 route cost=6 hops=3 again=no ero=001c140101080a000302200001080a000601200001080a0005042000|
# A refused row leaves the open changes.
5 1 0 3 > put,1.1.1.1,10.0.12.1,2.2.2.2,10.0.12.2,010,0x1,F|end,1,1|P|x|end,1,1| > row 1 refused: number 6|batch 1 refused: counted 0|row 4 refused: kind|version 1|
# Affinities.
6 1 3 0 > put,1.1.1.1,10.0.12.1,2.2.2.2,10.0.12.2,10,0x6,F|put,2.2.2.2,10.0.12.2,1.1.1.1,10.0.12.1,10,0x6,O|end,1,2|ask,1,1.1.1.1,2.2.2.2,0,1000,0x1,0x2,0x6,|ask,2,1.1.1.1,2.2.2.2,0,1000,0x0,0x0,0x7,|ask,3,1.1.1.1,2.2.2.2,0,1000,0x4,0x0,0x0,| > version 1|ask 1 v1 route cost=10 hops=1 again=no ero=000c140101080a000c022000|ask 2 v1 none|ask 3 v1 none|
# The greatest numbers.
6 1 1 0 > put,1.1.1.1,10.0.12.1,2.2.2.2,10.0.12.2,4294967295,0x1,18446744073709551615,18446744073709551615,18446744073709551615,18446744073709551615,18446744073709551615,18446744073709551615,18446744073709551615,18446744073709551615|put,2.2.2.2,10.0.23.2,3.3.3.3,10.0.23.3,4294967295,0x1,18446744073709551615,18446744073709551615,18446744073709551615,18446744073709551615,18446744073709551615,18446744073709551615,18446744073709551615,18446744073709551615|put,2.2.2.2,10.0.12.2,1.1.1.1,10.0.12.1,4294967295,0x1,O|put,3.3.3.3,10.0.23.3,2.2.2.2,10.0.23.2,4294967295,0x1,O|end,1,4|ask,1,1.1.1.1,3.3.3.3,0,18446744073709551615,Z,| > version 1|ask 1 v1 route cost=8589934590 hops=2 again=no ero=0014140101080a000c02200001080a0017032000|
# Seven hops and eight.
5 1 1 1 > P|Q|end,1,2|ask,7,1.1.1.1,2.2.2.2,0,1000,Z,H|ask,8,1.1.1.1,2.2.2.2,0,1000,Z,H 0.0.0.0/0l| > version 1|ask 7 v1 route cost=10 hops=1 again=no ero=000c140101080a000c022000|row 5 refused: hops count|
# Each refusal of a row by its name.
11 0 0 11 > foo|drop,1.1.1.1|drop,01.1.1.1,10.0.0.1|end,4294967296,0|put,1.1.1.1,10.0.12.1,1.1.1.1,10.0.12.2,10,0x123456789,F|put,1.1.1.1,10.0.12.1,1.1.1.1,10.0.12.2,10,0x1,F|ask,1,1.1.1.1,1.1.1.1,8,x,Z,|ask,1,1.1.1.1,1.1.1.1,7,0,Z,|ask,1,1.1.1.1,2.2.2.2,7,0,Z,10.0.0.0/33l|ask,1,1.1.1.1,2.2.2.2,7,0,Z,ero:0|ask,1,1.1.1.1,2.2.2.2,7,0,Z,ero:| > row 1 refused: kind|row 2 refused: fields|row 3 refused: address 2|row 4 refused: number 2|row 5 refused: mask 7|row 6 refused: self-link|row 7 refused: priority|row 8 refused: same-ends|row 9 refused: hops 1|row 10 refused: hops hex|row 11 refused: hops ero short|
# A byte order mark at the front, lines that end with a carriage return too, an empty line, a field in quotes, and a last row without a line feed.
4 1 1 0 > BPR|R|QR|\"end\",1,2R|ask,7,1.1.1.1,2.2.2.2,0,1000,Z, > version 1|ask 7 v1 route cost=10 hops=1 again=no ero=000c140101080a000c022000|
# A quote that never closes takes the rest of the stream into its field.
3 1 0 1 > P|end,1,1|ask,\"7,1.1.1.1|end,2,0| > version 1|row 3 refused: fields|
# Bytes that are no text.
4 1 0 3 > askN|X,1|end,Y(,1|end,1,0| > row 1 refused: kind|row 2 refused: kind|row 3 refused: number 2|version 1|
";

/// The summary of a run over rows, with these counts.
fn summary_of([rows, version, answers, refused]: [u32; 4], too_many: bool) -> Summary {
    Summary {
        rows,
        version,
        answers,
        refused,
        too_many,
    }
}

/// The result of a run over rows that are read in pieces, and the bytes that the run's writer has.
fn run_pieces(
    alloc: Global,
    reader: Pieces<'_>,
    width: usize,
    most: usize,
) -> (Result<Summary, SolveError>, Vec<u8>) {
    let mut writer = Narrow {
        held: Vec::new(alloc),
        width,
        most,
    };
    let found = run_solve(alloc, reader, &mut writer);
    let Narrow { held, .. } = writer;
    (found, held)
}

/// Whether a run over a script (rows of changes, batches and requests) writes these lines and has
/// these counts. The run reads at most `read` bytes and writes at most `write` bytes at a time.
pub(super) fn is_answered(
    alloc: Global,
    script: &[u8],
    read: usize,
    write: usize,
    lines: &[u8],
    counts: [u32; 4],
) -> bool {
    let reader = in_pieces(script, read, usize::MAX);
    let (found, held) = run_pieces(alloc, reader, write, usize::MAX);
    let status = if counts[3] > 0 { 2 } else { 0 };
    match found {
        Ok(summary) => {
            summary == summary_of(counts, false)
                && summary.status() == status
                && held.as_slice() == lines
        }
        Err(_) => false,
    }
}

/// Whether a run over the script in a line of the table writes the lines that the table gives. The
/// script is read whole and the lines are written whole in a first run, and both in pieces in a
/// second run. A script is rows of changes, batches and requests.
fn has_line(alloc: Global, line: &str) -> Result<bool, AllocError> {
    let (counts, fields) = cut(line);
    let (script, fields) = cut_bytes(alloc, fields)?;
    let (lines, _) = cut_bytes(alloc, fields)?;
    let (all, counts) = (usize::MAX, numbers_of(counts));
    Ok(
        is_answered(alloc, &script, all, all, &lines, counts)
            && is_answered(alloc, &script, 1, 3, &lines, counts),
    )
}

#[test]
fn runs(rt: HostRuntime) -> Result<(), AllocError> {
    for line in RUNS.lines() {
        assert!(rt;
            line.starts_with('#') || has_line(rt.alloc(), line)?,
            "{line}"
        );
    }
    Ok(())
}

/// A batch, and a request between the rows of a second batch.
const FRONT: &[u8] =
    b"P\nend,1,1\nput,2.2.2.2,10.0.12.2,1.1.1.1,10.0.12.1,10,0x1,F\nask,8,2.2.2.2,1.1.1.1,0,1,Z,\n";

/// The lines that are written for the rows of `FRONT`.
const FIRST_LINES: &[u8] = b"version 1\nask 8 v1 none\n";

/// Whether a run over rows writes the lines of all rows of a text, when reading fails after this
/// text.
fn stops_at_a_read(alloc: Global, text: &[u8]) -> bool {
    let reader = in_pieces(text, 7, text.len());
    let (found, held) = run_pieces(alloc, reader, 100, usize::MAX);
    found == Err(SolveError::Read) && held.as_slice() == FIRST_LINES
}

/// Whether a run over rows fails when its writer accepts only `most` bytes, and has written exactly
/// these bytes by then.
fn stops_at_a_write(alloc: Global, text: &[u8], most: usize) -> bool {
    let reader = in_pieces(text, 100, text.len());
    let (found, held) = run_pieces(alloc, reader, 4, most);
    let written = most as u128;
    found == Err(SolveError::Write { written })
        && held.len() == most
        && FIRST_LINES.starts_with(held.as_slice())
}

/// A read fails after some rows, or a write fails before the lines are complete.
#[test]
fn device_faults(rt: HostRuntime) -> Result<(), AllocError> {
    let text = bytes_of(rt.alloc(), FRONT)?;
    assert!(rt; stops_at_a_read(rt.alloc(), &text));
    for most in [0, 1, 9, 10, 23] {
        assert!(rt; stops_at_a_write(rt.alloc(), &text, most), "after {most}");
    }
    Ok(())
}

/// Whether a run over `left` copies of a change's row has this summary, and writes this line.
fn ends(alloc: Global, left: u32, wanted: Summary, line: &[u8]) -> bool {
    let reader = copies(b"drop,1.1.1.1,10.0.0.1\n", left);
    let (found, held) = run_pieces(alloc, reader, usize::MAX, usize::MAX);
    found == Ok(wanted) && held.as_slice() == line
}

#[test]
fn as_many_rows_as_are_read(rt: HostRuntime) {
    let (most, refused) = (1_000_000, summary_of([1_000_000, 0, 0, 1], false));
    assert!(rt; ends(rt.alloc(), most, refused, b"unended 1000000\n"));
    let too_many = summary_of([1_000_000, 0, 0, 0], true);
    assert!(rt; too_many.status() == 2);
    assert!(rt; ends(rt.alloc(), most + 1, too_many, b"too many rows\n"));
}
