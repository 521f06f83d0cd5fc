//! Reads a stream of requests into a list.

ghost use Rattle.std.specs.Prelude.{◌≡◌, ◌+◌, ◌≤◌, ◌∷◌, ◌++◌, [], length, IfOk, IfErr, IfSome, OnOk, List, ℕ, true};
ghost use Rattle.csv.specs.Reading.{has_failed};
ghost use Rattle.csv.specs.Records.{fields_of};
ghost use Rattle.cspf_rows.specs.Records.{rows_of, rows_left, IsPlain};
ghost use Rattle.cspf_rows.specs.Rows.{row_of};
ghost use Rattle.cspf_rows.specs.declared.row.Row.TheVariants as row;
ghost use Rattle.cspf_rows.specs.Requests.{AreRequests, IsRequestsFault};
ghost use Rattle.cspf_rows.specs.RequestReading.{IsRefusedAt};

use crate::limits::MOST_ROWS;
use crate::records::{next_record, open_records};
use crate::requests_error::RequestsError;
use crate::row::Row;
use cspf_model::Request;
use csv::{ByteRecord, Reader};
use std::alloc::{AllocError, Global};
use std::io::Read;

/// Reads a stream of requests, one in each row. The first row that is refused or isn't a request
/// ends the reading with an error. A stream of more than `MOST_ROWS` rows also gives an error.
pub fn read_requests<R: Read + Drop>(
    alloc: Global,
    reader: R,
) -> Result<Vec<Request>, RequestsError>
    ensures whole { IfOk result (λ requests. IfSome (R.remaining reader) (λ bytes.
        AreRequests (rows_of bytes) requests.items)) }
    ensures few { OnOk result (IfSome (R.remaining reader) (λ bytes.
        length (rows_of bytes) ≤ MOST_ROWS)) }
    ensures most { IfOk result (λ requests. length requests.items ≤ MOST_ROWS) }
    ensures err { IfErr result (λ fault. IfSome (R.remaining reader) (λ bytes.
        IsRequestsFault (rows_of bytes) fault)) }
{
    let mut records = open_records(alloc, reader);
    let mut fields = ByteRecord::new(alloc);
    read_rest(alloc, &mut records, &mut fields)
}

/// Reads the requests that a reader hasn't read yet.
fn read_rest<R: Read>(
    alloc: Global,
    records: &mut Reader<R>,
    fields: &mut ByteRecord,
) -> Result<Vec<Request>, RequestsError>
    requires { IsPlain records.old }
    ensures whole { IfOk result (λ requests. IfSome (rows_left R.remaining records.old) (λ rows.
        AreRequests rows requests.items)) }
    ensures few { OnOk result (IfSome (rows_left R.remaining records.old) (λ rows.
        length rows ≤ MOST_ROWS)) }
    ensures most { IfOk result (λ requests. length requests.items ≤ MOST_ROWS) }
    ensures err { IfErr result (λ fault. IfSome (rows_left R.remaining records.old) (λ rows.
        IsRequestsFault rows fault)) }
    ensures device { result ≡ Err RequestsError.Device → has_failed records.new ≡ true }
{
    let mut requests = Vec::new(alloc);
    read_all(records, fields, &mut requests)?;
    Ok(requests)
}

/// Reads the requests that a reader hasn't read yet, one after the other, into `requests`.
fn read_all<R: Read>(
    records: &mut Reader<R>,
    fields: &mut ByteRecord,
    requests: &mut Vec<Request>,
) -> Result<(), RequestsError>
    requires plain { IsPlain records.old }
    requires fresh { requests.old.items ≡ [] }
    ensures whole { OnOk result (IfSome (rows_left R.remaining records.old) (λ rows.
        AreRequests rows requests.new.items)) }
    ensures few { OnOk result (IfSome (rows_left R.remaining records.old) (λ rows.
        length rows ≤ MOST_ROWS)) }
    ensures most { OnOk result (length requests.new.items ≤ MOST_ROWS) }
    ensures err { IfErr result (λ fault. IfSome (rows_left R.remaining records.old) (λ rows.
        IsRequestsFault rows fault)) }
    ensures device { result ≡ Err RequestsError.Device → has_failed records.new ≡ true }
{
    for read in 0..MOST_ROWS {
        if !next_record(records, fields)? {
            return Ok(());
        }
        let request = read_request(read + 1, fields)?;
        add(requests, request)?;
    }
    if next_record(records, fields)? {
        return Err(RequestsError::TooManyRows);
    }
    Ok(())
}

/// Appends a request to the list.
fn add(requests: &mut Vec<Request>, request: Request) -> Result<(), AllocError>
    ensures { OnOk result (requests.new.items ≡ requests.old.items ++ request ∷ []) }
{
    requests.push(request)?;
    Ok(())
}

/// The request that a record asks for. `place` is the number of the record, counted from 1.
fn read_request(place: u32, fields: &ByteRecord) -> Result<Request, RequestsError>
    ensures ok { IfOk result (λ request. row_of (fields_of fields.now) ≡ Ok (row.Ask request)) }
    ensures err { IfErr result (IsRefusedAt place (row_of (fields_of fields.now))) }
{
    match Row::read(fields) {
        Ok(Row::Ask(request)) => Ok(request),
        Ok(_) => Err(RequestsError::NotAsk { row: place }),
        Err(error) => Err(RequestsError::Bad { row: place, error }),
    }
}
