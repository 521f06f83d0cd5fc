//! Reads a record as the row of a question, or leaves it to the rows of a database.

ghost use Rattle.std.specs.Prelude.{◌≡◌, IfOk};
ghost use Rattle.csv.specs.Records.{fields_of};
ghost use Rattle.cspf_rows.specs.Rows.{ask_row_of};
ghost use Rattle.cspf_questions.specs.QuestionRows.{request_in};

use crate::error::QuestionError;
use crate::field::{read_exclusions, text};
use crate::kinds::QuestionKinds;
use crate::pair_row::read_pair;
use crate::question::{ExceptQuestion, Question};
use cspf_model::Request;
use cspf_rows::{Row, RowError};
use csv::ByteRecord;
use std::alloc::{AllocError, Global};

/// What a record is read as.
#[derive(Debug, Drop)]
pub enum ReadFields {
    /// A row of a database, or the reason why it is refused.
    Row(Result<Row, RowError>),
    /// A question.
    Question(Question),
    /// The row of a question that is refused.
    Refused(QuestionError),
}

impl ReadFields {
    ghost use Rattle.cspf_questions.specs.QuestionRows.{read_fields, except_fields};

    /// Reads a record. Only rows of these kinds are read as questions.
    #[tactic(auto, unfolding(crate::specs::QuestionRows::read_fields))]
    pub fn of(
        alloc: Global,
        kinds: QuestionKinds,
        fields: &ByteRecord,
    ) -> Result<ReadFields, AllocError>
        ensures { IfOk result (λ read. read ≡ read_fields kinds (fields_of fields.now)) }
    {
        let kind = text(fields, 1);
        if kinds.except && kind == b"except".as_slice() {
            ReadFields::except(alloc, fields)
        } else if kinds.pair && kind == b"pair".as_slice() {
            read_pair(alloc, fields)
        } else {
            Ok(ReadFields::Row(Row::read(fields)))
        }
    }

    /// Reads an `except` row, which has 11 fields.
    fn except(alloc: Global, fields: &ByteRecord) -> Result<ReadFields, AllocError>
        ensures { IfOk result (λ read. read ≡ except_fields (fields_of fields.now)) }
    {
        if fields.len() != 11 {
            return Ok(ReadFields::Refused(QuestionError::Row(RowError::Fields)));
        }
        let request = match asked(fields) {
            Ok(request) => request,
            Err(why) => return Ok(ReadFields::Refused(QuestionError::Row(why))),
        };
        match read_exclusions(alloc, text(fields, 11))? {
            Ok(exclusions) => Ok(ReadFields::Question(Question::Except(ExceptQuestion {
                request,
                exclusions,
            }))),
            Err(why) => Ok(ReadFields::Refused(QuestionError::Except(why))),
        }
    }
}

/// The request in the fields 2 to 10 of a record.
pub(crate) fn asked(fields: &ByteRecord) -> Result<Request, RowError>
    ensures { result ≡ request_in (ask_row_of (fields_of fields.now)) }
{
    match Row::ask(fields)? {
        Row::Ask(request) => Ok(request),
        // `Row::ask` returns only requests.
        _ => Err(RowError::Kind),
    }
}
