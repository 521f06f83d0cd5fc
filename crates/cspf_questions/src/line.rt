ghost use Rattle.std.specs.Prelude.{◌≡◌, IfOk};
ghost use Rattle.cspf_questions.specs.QuestionLines.{refused_question_line};

use crate::error::QuestionError;
use std::alloc::{AllocError, Global};

/// The line of a refused row, including the line feed. `place` is the number of the row, counted
/// from 1.
pub fn refused_question(
    alloc: Global,
    place: u64,
    error: QuestionError,
) -> Result<Vec<u8>, AllocError>
    ensures { IfOk result (λ line. line.items ≡ refused_question_line place error) }
{
    Ok(format!(in alloc; "row {place} refused: {error}\n")?.into_bytes())
}
