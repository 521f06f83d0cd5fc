//! Reads the row of a request for a pair.

ghost use Rattle.std.specs.Prelude.{◌≡◌, IfOk};
ghost use Rattle.csv.specs.Records.{fields_of};
ghost use Rattle.cspf_rows.specs.Rows.{ask_row_of};
ghost use Rattle.cspf_questions.specs.QuestionRows.{pair_fields, pair_kind_of, request_in, without_hops};

use crate::error::QuestionError;
use crate::field::text;
use crate::question::Question;
use crate::reading::{ReadFields, asked};
use cspf_model::Request;
use cspf_pair::{Kind, PairRequest};
use cspf_rows::RowError;
use csv::ByteRecord;
use std::alloc::{AllocError, Global};

/// The kind of pair that a text names: `circuits` or `routers`.
#[tactic(auto, unfolding(crate::specs::QuestionRows::pair_kind_of))]
fn read_kind(text: &[u8]) -> Option<Kind>
    ensures { result ≡ pair_kind_of text.now }
{
    if text == b"circuits".as_slice() {
        Some(Kind::Circuits)
    } else if text == b"routers".as_slice() {
        Some(Kind::Routers)
    } else {
        None
    }
}

/// The record's first nine fields, and an empty field.
fn empty_hops(alloc: Global, fields: &ByteRecord) -> Result<ByteRecord, AllocError>
    ensures { IfOk result (λ other. fields_of other ≡ without_hops (fields_of fields.now)) }
{
    let parts = [
        text(fields, 1),
        text(fields, 2),
        text(fields, 3),
        text(fields, 4),
        text(fields, 5),
        text(fields, 6),
        text(fields, 7),
        text(fields, 8),
        text(fields, 9),
        b"".as_slice(),
    ];
    ByteRecord::from_fields(alloc, &parts)
}

/// The request in the fields 2 to 9 of a record, without hops.
fn asked_without_hops(
    alloc: Global,
    fields: &ByteRecord,
) -> Result<Result<Request, RowError>, AllocError>
    ensures { IfOk result (λ read. read ≡ request_in (ask_row_of (without_hops (fields_of fields.now)))) }
{
    let other = empty_hops(alloc, fields)?;
    Ok(asked(&other))
}

/// Reads a `pair` row, which has 10 fields.
pub(crate) fn read_pair(alloc: Global, fields: &ByteRecord) -> Result<ReadFields, AllocError>
    ensures { IfOk result (λ read. read ≡ pair_fields (fields_of fields.now)) }
{
    if fields.len() != 10 {
        return Ok(ReadFields::Refused(QuestionError::Row(RowError::Fields)));
    }
    let request = match asked_without_hops(alloc, fields)? {
        Ok(request) => request,
        Err(why) => return Ok(ReadFields::Refused(QuestionError::Row(why))),
    };
    match read_kind(text(fields, 10)) {
        Some(kind) => Ok(ReadFields::Question(Question::Pair(PairRequest { request, kind }))),
        None => Ok(ReadFields::Refused(QuestionError::PairKind)),
    }
}
