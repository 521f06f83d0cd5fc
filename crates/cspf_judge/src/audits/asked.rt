//! Rows that ask, `ask` rows and the rows of questions, as an audit sees them.

ghost use Rattle.std.specs.Prelude.{◌↔◌, ◌++◌, ◌∷◌, [], IsTrue, IfOk, IfSome, IfNone, codes};
ghost use Rattle.cspf_ero.specs.declared.head.Head.{Head as AsHead};
ghost use Rattle.cspf_ero.specs.ReplyHead.{BeginsWithHead, HasNoHead};
ghost use Rattle.cspf_questions.specs.QuestionLines.{IsExceptReply, IsPairReply};
ghost use Rattle.cspf_questions.specs.declared.asked.AskedRow.TheVariants as asked_row;
ghost use Rattle.cspf_judge.specs.Asks.{IsJudged};
ghost use Rattle.cspf_judge.specs.Asked.{BeginsAsQuestion, BeginsWithWord, asked_spec};

use crate::audits::asks::Asks;
use crate::audits::comparing::is_line;
use cspf_db::Table;
use cspf_disjoint::PairError;
use cspf_ero::{Head, reply_head};
use cspf_pair::PairRequest;
use cspf_questions::{AskedRow, ExceptQuestion, Question, pair_reply};
use std::alloc::{AllocError, Global};

/// `ask` rows and the rows of questions.
impl Asks for AskedRow {
    ghost use Rattle.cspf_judge.specs.Asked.{asked_spec};
    ghost use Rattle.cspf_judge.specs.AskedHeads.{one_answer_head, no_answer_skipped};

    ghost spec = { asked_spec };

    fn id(&self) -> u64 {
        AskedRow::id(self)
    }

    fn head(alloc: Global, line: &[u8]) -> Result<Option<Head>, AllocError> {
        match question_head(alloc, line)? {
            Some(head) => Ok(Some(head)),
            None => Ok(reply_head(line)),
        }
    }

    fn is_answer(
        &self,
        alloc: Global,
        table: &Table,
        version: u32,
        line: &[u8],
    ) -> Result<bool, AllocError> {
        match self {
            AskedRow::Ask(request) => request.is_answer(alloc, table, version, line),
            AskedRow::Question(question) => {
                is_question_reply(alloc, table, question, version, line)
            }
        }
    }

    ghost one_head = { one_answer_head };

    ghost none_skipped = { no_answer_skipped };
}

/// The id and the version that a line has behind its first word. `behind` are the bytes behind this
/// word. The head is read with the word `ask` in its place.
fn head_behind(alloc: Global, behind: &[u8]) -> Result<Option<Head>, AllocError>
    ensures some { IfOk result (λ head. IfSome head (BeginsWithHead (codes "ask" ++ behind.now))) }
    ensures none { IfOk result (λ head. IfNone head (HasNoHead (codes "ask" ++ behind.now))) }
{
    let mut told = Vec::new(alloc);
    told.extend_from_slice(b"ask")?;
    told.extend_from_slice(behind)?;
    Ok(reply_head(&told))
}

/// The id and the version that a line has behind the word `except`.
fn except_head(alloc: Global, line: &[u8]) -> Result<Option<Head>, AllocError>
    ensures some { IfOk result (λ head. IfSome head (BeginsWithWord (codes "except") line.now)) }
    ensures none { IfOk result (λ head. IfNone head ((other : AsHead)
        → ¬ BeginsWithWord (codes "except") line.now other)) }
{
    match line.strip_prefix(b"except") {
        Some(behind) => head_behind(alloc, behind),
        None => Ok(None),
    }
}

/// The id and the version that a line has behind the word `pair`.
fn pair_head(alloc: Global, line: &[u8]) -> Result<Option<Head>, AllocError>
    ensures some { IfOk result (λ head. IfSome head (BeginsWithWord (codes "pair") line.now)) }
    ensures none { IfOk result (λ head. IfNone head ((other : AsHead)
        → ¬ BeginsWithWord (codes "pair") line.now other)) }
{
    match line.strip_prefix(b"pair") {
        Some(behind) => head_behind(alloc, behind),
        None => Ok(None),
    }
}

/// The id and the version that a line has behind the word `except` or the word `pair`.
fn question_head(alloc: Global, line: &[u8]) -> Result<Option<Head>, AllocError>
    ensures some { IfOk result (λ head. IfSome head (BeginsAsQuestion line.now)) }
    ensures none { IfOk result (λ head. IfNone head ((other : AsHead)
        → ¬ BeginsAsQuestion line.now other)) }
{
    match except_head(alloc, line)? {
        Some(head) => Ok(Some(head)),
        None => pair_head(alloc, line),
    }
}

/// Whether a line is the one that answers a question at a version. The table has the database of that
/// version.
fn is_question_reply(
    alloc: Global,
    table: &Table,
    question: &Question,
    version: u32,
    line: &[u8],
) -> Result<bool, AllocError>
    ensures { IfOk result (IsJudged asked_spec table.now (asked_row.Question question.now) version line.now) }
{
    match question {
        Question::Except(question) => is_except_reply(alloc, table, question, version, line),
        Question::Pair(request) => is_pair_reply(alloc, table, request, version, line),
    }
}

/// Whether a line is the one that answers an `except` row at a version. The table has the database of
/// that version.
fn is_except_reply(
    alloc: Global,
    table: &Table,
    question: &ExceptQuestion,
    version: u32,
    line: &[u8],
) -> Result<bool, AllocError>
    ensures { IfOk result (λ right. IsTrue right
        ↔ IsExceptReply table.now version question.now (line.now ++ 10 ∷ [])) }
{
    let reply = question.reply_from(alloc, table, version)?;
    Ok(is_line(line, &reply))
}

/// Whether a line is the one that the audit computes for a request for a pair at a version. The table
/// has the database of that version. If the search finds no proved answer, no line is.
fn is_pair_reply(
    alloc: Global,
    table: &Table,
    request: &PairRequest,
    version: u32,
    line: &[u8],
) -> Result<bool, AllocError>
    ensures { IfOk result (λ right. IsTrue right
        → IsPairReply table.now version request.now (line.now ++ 10 ∷ [])) }
{
    match pair_reply(alloc, table, request, version) {
        Ok(reply) => Ok(is_line(line, &reply)),
        Err(PairError::Memory) => Err(AllocError),
        Err(PairError::Undecided) => Ok(false),
    }
}
