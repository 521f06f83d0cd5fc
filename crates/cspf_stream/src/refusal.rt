ghost use Rattle.std.specs.Prelude.{◌≡◌, IfOk};
ghost use Rattle.cspf_stream.specs.RefusedRows.{refused_row_line};

use cspf_rows::RowError;
use std::alloc::{AllocError, Global};

/// The line of a refused row, including the line feed. `place` is the number of the row, counted
/// from 1.
pub fn refused_row(alloc: Global, place: u64, error: RowError) -> Result<Vec<u8>, AllocError>
    ensures { IfOk result (λ line. line.items ≡ refused_row_line place error) }
{
    Ok(format!(in alloc; "row {place} refused: {error}\n")?.into_bytes())
}
