ghost use Rattle.std.specs.Prelude.{◌≡◌, List, length, OnOk, OnErr};
ghost use Rattle.std.specs.Io.KnownBytes.{Appends};
ghost use Rattle.cspf_model.specs.Numbered.{NumberedChanges, AreNumberedFrom};
ghost use Rattle.cspf_judge.specs.EarlyEnds.{WritesFront};
ghost use Rattle.cspf_serve.specs.BatchRun.{version_lines};

use cspf_judge::{JudgeError, JudgeLine, put_line};
use cspf_stream::StreamLine;
use std::alloc::Global;
use std::io::Write;

/// Writes the lines of the first `count` versions: 1, 2, 3 and so on.
pub(super) fn write_versions<W: Write>(
    alloc: Global,
    count: u32,
    writer: &mut W,
) -> Result<(), JudgeError>
    ensures text { OnOk result ((batches : List NumberedChanges) → AreNumberedFrom 1 batches
        → length batches ≡ count
        → Appends (W.contents writer.old) (W.contents writer.new) (version_lines batches)) }
    ensures front { OnErr result ((batches : List NumberedChanges) → AreNumberedFrom 1 batches
        → length batches ≡ count
        → WritesFront (W.contents writer.old) (W.contents writer.new) (version_lines batches)) }
{
    for made in 0..count {
        let version = made + 1;
        let line = StreamLine::Version { version };
        put_line(alloc, JudgeLine::Stream(line), writer)?;
    }
    Ok(())
}
