ghost use Rattle.std.specs.Prelude.{◌≡◌, true, IfOk, OnErr};
ghost use Rattle.std.specs.Option.{option_map};
ghost use Rattle.csv.specs.Reading.{has_failed};
ghost use Rattle.csv.specs.Records.{fields_of};
ghost use Rattle.cspf_rows.specs.Records.{rows_of, rows_left, IsPlain, Takes};

use crate::record_error::RecordError;
use csv::{ByteRecord, Reader, ReaderBuilder};
use std::alloc::Global;
use std::io::Read;

/// Opens a reader of the rows of a stream. The stream has no header, and a record may have any
/// number of fields.
pub fn open_records<R: Read>(alloc: Global, reader: R) -> Reader<R>
    ensures plain { IsPlain result }
    ensures rows { rows_left R.remaining result ≡ option_map rows_of (R.remaining reader) }
{
    ReaderBuilder::new()
        .has_headers(false)
        .flexible(true)
        .from_reader(alloc, reader)
}

/// Reads the fields of the next row, and returns whether there was a next row. After an error the
/// reader can't be used again.
pub fn next_record<R: Read>(
    rows: &mut Reader<R>,
    fields: &mut ByteRecord,
) -> Result<bool, RecordError>
    requires { IsPlain rows.old }
    ensures row { IfOk result (λ found. Takes (rows_left R.remaining rows.old)
        (rows_left R.remaining rows.new) found (fields_of fields.new)) }
    ensures plain { IfOk result (λ found. found ≡ true → IsPlain rows.new) }
    ensures failed { OnErr result (has_failed rows.new ≡ true) }
{
    Ok(rows.read_byte_record(fields)?)
}
