//! Makes the text of an accepted row, which goes to the writer `keep`.

ghost use Rattle.std.specs.Prelude.{◌≡◌, ◌++◌, IfOk};
ghost use Rattle.csv.specs.Records.{fields_of};
ghost use Rattle.csv.specs.Writing.{default_writer, row_text, writer_under, writer_pending};

use csv::{ByteRecord, Writer};
use std::alloc::{AllocError, Global};

/// The fields of a row as `csv` writes them: separated by commas, with a line feed at the end. A
/// field is quoted only if it has a comma, a quotation mark or a line break.
pub(crate) fn row_text(alloc: Global, fields: &ByteRecord) -> Result<Vec<u8>, AllocError>
    ensures { IfOk result (λ text. text.items ≡ row_text default_writer (fields_of fields.now)) }
{
    let mut rows = Writer::from_writer(Vec::new(alloc));
    match rows.write_byte_record(fields) {
        Ok(()) => written(rows),
        Err(_refused) => Err(AllocError),
    }
}

/// All bytes that were written to `rows`, including the bytes in its buffer.
fn written(rows: Writer<Vec<u8>>) -> Result<Vec<u8>, AllocError>
    ensures { IfOk result (λ text. text.items ≡ (writer_under rows).items ++ writer_pending rows) }
{
    match rows.into_inner() {
        Ok(text) => Ok(text),
        Err(_refused) => Err(AllocError),
    }
}
