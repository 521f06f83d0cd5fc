//! Questions, and the line that answers each.

ghost use Rattle.std.specs.Prelude.{◌≡◌, IfOk, IfErr};
ghost use Rattle.cspf_questions.specs.QuestionLines.{IsPairReply};

use crate::pair_line::pair_line;
use cspf_db::Table;
use cspf_disjoint::{PairError, best_pair};
use cspf_ero::reply_line_as;
use cspf_except::best_except_in;
use cspf_exclusions::Exclusions;
use cspf_model::Request;
use cspf_pair::PairRequest;
use std::alloc::{AllocError, Global};

/// The question of an `except` row: which route is the least one that avoids the excluded links.
#[derive(Debug, Drop)]
pub struct ExceptQuestion {
    /// The request.
    pub request: Request,
    /// What the route avoids.
    pub exclusions: Exclusions,
}

impl ExceptQuestion {
    ghost use Rattle.cspf_questions.specs.QuestionLines.{IsExceptReply};

    /// The line that answers the question in the table's database. `version` is the version of this
    /// database. The call may change the table, and drops it.
    fn reply(&self, alloc: Global, table: Table, version: u32) -> Result<Vec<u8>, AllocError>
        ensures { IfOk result (λ line. IsExceptReply table version self.now line.items) }
    {
        let outcome = best_except_in(alloc, table, &self.request, &self.exclusions)?;
        reply_line_as(alloc, "except", self.request.id, version, &outcome)
    }

    /// As `reply`, in a copy of the table.
    pub fn reply_from(
        &self,
        alloc: Global,
        table: &Table,
        version: u32,
    ) -> Result<Vec<u8>, AllocError>
        ensures { IfOk result (λ line. IsExceptReply table.now version self.now line.items) }
    {
        let copy = table.try_clone(alloc)?;
        self.reply(alloc, copy, version)
    }
}

/// A question: what a row other than an `ask` row asks for.
#[derive(Debug, Drop)]
pub enum Question {
    /// The question of an `except` row.
    Except(ExceptQuestion),
    /// The question of a `pair` row: which two ways are the pair of least size.
    Pair(PairRequest),
}

/// The line that answers a request for a pair in the table's database, whose version is `version`.
pub fn pair_reply(
    alloc: Global,
    table: &Table,
    request: &PairRequest,
    version: u32,
) -> Result<Vec<u8>, PairError>
    ensures { IfOk result (λ line. IsPairReply table.now version request.now line.items) }
{
    let outcome = best_pair(alloc, table, request)?;
    Ok(pair_line(alloc, request.request.id, version, &outcome)?)
}

impl Question {
    ghost use Rattle.cspf_questions.specs.QuestionLines.{IsQuestionReply, MayFail, question_id};

    /// The id of the question. Its answer repeats this number.
    pub fn id(&self) -> u64
        ensures { result ≡ question_id self.now }
    {
        match self {
            Question::Except(question) => question.request.id,
            Question::Pair(request) => request.request.id,
        }
    }

    /// The line that answers the question in the table's database. `version` is the version of this
    /// database. The call may change the table, and drops it. Only a request for a pair may be
    /// `Undecided`.
    pub fn reply(&self, alloc: Global, table: Table, version: u32) -> Result<Vec<u8>, PairError>
        ensures line { IfOk result (λ line. IsQuestionReply table version self.now line.items) }
        ensures fault { IfErr result (MayFail self.now) }
    {
        match self {
            Question::Except(question) => Ok(question.reply(alloc, table, version)?),
            Question::Pair(request) => pair_reply(alloc, &table, request, version),
        }
    }

    /// As `reply`, but the call doesn't change the table. A question that needs a table of its own is
    /// answered in a copy.
    pub fn reply_from(
        &self,
        alloc: Global,
        table: &Table,
        version: u32,
    ) -> Result<Vec<u8>, PairError>
        ensures { IfOk result (λ line. IsQuestionReply table.now version self.now line.items) }
    {
        match self {
            Question::Except(question) => Ok(question.reply_from(alloc, table, version)?),
            Question::Pair(request) => pair_reply(alloc, table, request, version),
        }
    }
}
