ghost use Rattle.std.specs.Prelude.{◌≡◌, IfOk, IfErr, OnOk, OnErr};
ghost use Rattle.std.specs.Io.KnownBytes.{Appends};
ghost use Rattle.std.specs.Io.KnownBytes.{Keeps as HoldsAsBefore};
ghost use Rattle.cspf_judge.specs.EarlyEnds.{IsRefusalBegun, IsRefusalWritten, IsLastError, WritesFront};
ghost use Rattle.cspf_judge.specs.LineTexts.{judge_line_text};

use crate::{EarlyEnd, JudgeError, JudgeLine};
use cspf_rows::put_all;
use std::alloc::Global;
use std::io::Write;

/// Writes the bytes of a line. If an error is returned, the writer may have a prefix of these
/// bytes.
pub fn put<W: Write>(line: &[u8], writer: &mut W) -> Result<(), JudgeError>
    ensures text { OnOk result (Appends (W.contents writer.old) (W.contents writer.new) line.now) }
    ensures front { OnErr result (WritesFront
        (W.contents writer.old) (W.contents writer.new) line.now) }
    ensures error { IfErr result (λ e. e ≡ JudgeError.Device) }
{
    match put_all(writer, line) {
        Ok(()) => Ok(()),
        Err(_) => Err(JudgeError::Device),
    }
}

/// Writes a line. If an error is returned, the writer may have a prefix of the line.
pub fn put_line<W: Write>(alloc: Global, line: JudgeLine, writer: &mut W) -> Result<(), JudgeError>
    ensures text { OnOk result (Appends (W.contents writer.old) (W.contents writer.new)
        (judge_line_text line)) }
    ensures front { OnErr result (WritesFront
        (W.contents writer.old) (W.contents writer.new) (judge_line_text line)) }
    // If memory is refused, no byte is written.
    ensures memory { IfErr result (λ e. e ≡ JudgeError.Memory
        → HoldsAsBefore (W.contents writer.old) (W.contents writer.new)) }
{
    let bytes = line.bytes(alloc)?;
    put(&bytes, writer)
}

/// If an input is refused, writes the line that refuses it, and returns the status 2. If the run
/// ends with an error, returns this error.
pub fn refuse<W: Write>(alloc: Global, end: EarlyEnd, writer: &mut W) -> Result<u8, JudgeError>
    ensures status { IfOk result (λ status. status ≡ 2) }
    ensures line { IfOk result (λ status.
        IsRefusalWritten end (W.contents writer.old) (W.contents writer.new)) }
    ensures begun { OnErr result (IsRefusalBegun end
        (W.contents writer.old) (W.contents writer.new)) }
    ensures error { IfErr result (IsLastError end) }
{
    match end {
        EarlyEnd::Refused(line) => {
            put_line(alloc, line, writer)?;
            Ok(2)
        }
        EarlyEnd::Failed(error) => Err(error),
    }
}
