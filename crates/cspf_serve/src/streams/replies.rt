ghost use Rattle.std.specs.Prelude.{◌≡◌, ℕ, take, IfErr, OnOk, OnErr};
ghost use Rattle.std.specs.Io.KnownBytes.{Keeps as HoldsAsBefore};
ghost use Rattle.cspf_ero.specs.ReplyLine.{IsReply};
ghost use Rattle.cspf_model.specs.Outcome.{answer_of};
ghost use Rattle.cspf_serve.specs.AnswerLines.{AreAnswerLines};
ghost use Rattle.cspf_judge.specs.EarlyEnds.{HasBegun, Writes};

use cspf_ero::reply_line;
use cspf_judge::{JudgeError, put};
use cspf_publish::Answer;
use std::alloc::Global;
use std::io::Write;

/// Writes the lines of answers, one after the other.
pub(crate) fn write_replies<W: Write>(
    alloc: Global,
    answers: &[Answer],
    writer: &mut W,
) -> Result<(), JudgeError>
    ensures text { OnOk result (Writes (W.contents writer.old) (W.contents writer.new)
        (AreAnswerLines answers.now)) }
    ensures begun { OnErr result (HasBegun (W.contents writer.old) (W.contents writer.new)
        (λ lines. (count : ℕ) × AreAnswerLines (take count answers.now) lines)) }
{
    for answer in answers {
        write_reply(alloc, answer, writer)?;
    }
    Ok(())
}

/// Writes the line of an answer.
fn write_reply<W: Write>(alloc: Global, answer: &Answer, writer: &mut W) -> Result<(), JudgeError>
    ensures text { OnOk result (Writes (W.contents writer.old) (W.contents writer.new)
        (IsReply answer.now.id answer.now.version (answer_of answer.now.outcome))) }
    ensures begun { OnErr result (HasBegun (W.contents writer.old) (W.contents writer.new)
        (IsReply answer.now.id answer.now.version (answer_of answer.now.outcome))) }
    // If memory is refused, no byte of the line is written.
    ensures memory { IfErr result (λ e. e ≡ JudgeError.Memory
        → HoldsAsBefore (W.contents writer.old) (W.contents writer.new)) }
{
    let line = reply_line(alloc, answer.id, answer.version, &answer.outcome)?;
    put(&line, writer)
}
