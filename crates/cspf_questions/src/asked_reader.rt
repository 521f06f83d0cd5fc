//! Reads a stream of rows that ask into a list.

ghost use Rattle.std.specs.Prelude.{◌≡◌, ◌+◌, ◌≤◌, ◌∷◌, ◌++◌, [], length, IfOk, IfErr, IfSome, OnOk, true};
ghost use Rattle.csv.specs.Reading.{has_failed};
ghost use Rattle.csv.specs.Records.{fields_of};
ghost use Rattle.cspf_rows.specs.Records.{rows_of, rows_left, IsPlain};
ghost use Rattle.cspf_rows.specs.declared.limits.TheConstants.{MOST_ROWS};
ghost use Rattle.cspf_rows.specs.declared.requests_error.RequestsError.TheVariants as requests_error;
ghost use Rattle.cspf_questions.specs.QuestionRows.{read_fields};
ghost use Rattle.cspf_questions.specs.AskedRows.{read_back, AreAskedRows, IsAskedFault};
ghost use Rattle.cspf_questions.specs.AskedReading.{IsAskedRefusedAt};
ghost use Rattle.cspf_questions.specs.declared.asked.AskedError.TheVariants as asked_error;

use crate::asked::{AskedError, AskedRow};
use crate::kinds::QuestionKinds;
use crate::reading::ReadFields;
use cspf_rows::{MOST_ROWS, RequestsError, Row, next_record, open_records};
use csv::{ByteRecord, Reader};
use std::alloc::{AllocError, Global};
use std::io::Read;

/// Reads a stream of rows that ask: `ask` rows, and the rows of questions of these kinds. The first
/// row that is refused or asks for nothing ends the reading with an error. A stream of more than
/// `MOST_ROWS` rows also gives an error.
pub fn read_asked<R: Read + Drop>(
    alloc: Global,
    kinds: QuestionKinds,
    reader: R,
) -> Result<Vec<AskedRow>, AskedError>
    ensures whole { IfOk result (λ rows. IfSome (R.remaining reader) (λ bytes.
        AreAskedRows kinds (rows_of bytes) rows.items)) }
    ensures few { OnOk result (IfSome (R.remaining reader) (λ bytes.
        length (rows_of bytes) ≤ MOST_ROWS)) }
    ensures most { IfOk result (λ rows. length rows.items ≤ MOST_ROWS) }
    ensures err { IfErr result (λ why. IfSome (R.remaining reader) (λ bytes.
        IsAskedFault kinds (rows_of bytes) why)) }
{
    let mut records = open_records(alloc, reader);
    let mut fields = ByteRecord::new(alloc);
    read_rest(alloc, kinds, &mut records, &mut fields)
}

/// Reads the rows that a reader hasn't read yet.
fn read_rest<R: Read>(
    alloc: Global,
    kinds: QuestionKinds,
    records: &mut Reader<R>,
    fields: &mut ByteRecord,
) -> Result<Vec<AskedRow>, AskedError>
    requires { IsPlain records.old }
    ensures whole { IfOk result (λ rows. IfSome (rows_left R.remaining records.old) (λ all.
        AreAskedRows kinds all rows.items)) }
    ensures few { OnOk result (IfSome (rows_left R.remaining records.old) (λ all.
        length all ≤ MOST_ROWS)) }
    ensures most { IfOk result (λ rows. length rows.items ≤ MOST_ROWS) }
    ensures err { IfErr result (λ why. IfSome (rows_left R.remaining records.old) (λ all.
        IsAskedFault kinds all why)) }
    ensures device { result ≡ Err (asked_error.Requests requests_error.Device)
        → has_failed records.new ≡ true }
{
    let mut rows = Vec::new(alloc);
    read_all(alloc, kinds, records, fields, &mut rows)?;
    Ok(rows)
}

/// Reads the rows that a reader hasn't read yet, one after the other, into `rows`.
fn read_all<R: Read>(
    alloc: Global,
    kinds: QuestionKinds,
    records: &mut Reader<R>,
    fields: &mut ByteRecord,
    rows: &mut Vec<AskedRow>,
) -> Result<(), AskedError>
    requires plain { IsPlain records.old }
    requires fresh { rows.old.items ≡ [] }
    ensures whole { OnOk result (IfSome (rows_left R.remaining records.old) (λ all.
        AreAskedRows kinds all rows.new.items)) }
    ensures few { OnOk result (IfSome (rows_left R.remaining records.old) (λ all.
        length all ≤ MOST_ROWS)) }
    ensures most { OnOk result (length rows.new.items ≤ MOST_ROWS) }
    ensures err { IfErr result (λ why. IfSome (rows_left R.remaining records.old) (λ all.
        IsAskedFault kinds all why)) }
    ensures device { result ≡ Err (asked_error.Requests requests_error.Device)
        → has_failed records.new ≡ true }
{
    for read in 0..MOST_ROWS {
        if !next_record(records, fields)? {
            return Ok(());
        }
        let row = read_row(alloc, kinds, read + 1, fields)?;
        add(rows, row)?;
    }
    if next_record(records, fields)? {
        return Err(AskedError::Requests(RequestsError::TooManyRows));
    }
    Ok(())
}

/// Appends a row to the list.
fn add(rows: &mut Vec<AskedRow>, row: AskedRow) -> Result<(), AllocError>
    ensures { OnOk result (rows.new.items ≡ rows.old.items ++ row ∷ []) }
{
    rows.push(row)?;
    Ok(())
}

/// The row that a record says, if this row asks. `place` is the number of the record, counted from 1.
fn read_row(
    alloc: Global,
    kinds: QuestionKinds,
    place: u32,
    fields: &ByteRecord,
) -> Result<AskedRow, AskedError>
    ensures ok { IfOk result (λ row. read_fields kinds (fields_of fields.now) ≡ read_back row) }
    ensures err { IfErr result (IsAskedRefusedAt place (read_fields kinds (fields_of fields.now))) }
{
    match ReadFields::of(alloc, kinds, fields)? {
        ReadFields::Row(Ok(Row::Ask(request))) => Ok(AskedRow::Ask(request)),
        ReadFields::Row(Ok(_)) => Err(AskedError::Requests(RequestsError::NotAsk { row: place })),
        ReadFields::Row(Err(error)) => {
            Err(AskedError::Requests(RequestsError::Bad { row: place, error }))
        }
        ReadFields::Question(question) => Ok(AskedRow::Question(question)),
        ReadFields::Refused(error) => Err(AskedError::Question { row: place, error }),
    }
}
