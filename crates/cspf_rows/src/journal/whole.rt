//! Reads a whole journal into a list of its batches.

ghost use Rattle.std.specs.Prelude.{◌≡◌, ◌<◌, ◌≤◌, ◌∷◌, ◌++◌, ℕ, List, Option, [], length, IfOk, IfSome, OnOk};
ghost use Rattle.cspf_rows.specs.Records.{rows_of};
ghost use Rattle.cspf_rows.specs.GivenBatches.{CanRead, HasGiven, HasFailed};
ghost use Rattle.cspf_rows.specs.Journal.{IsJournal};

use crate::journal::reader::JournalReader;
use crate::journal::{Journal, JournalStep, Rest};
use crate::limits::MOST_ROWS;
use crate::read_error::ReadError;
use cspf_model::Batch;
use std::alloc::{AllocError, Global};
use std::io::Read;

/// Reads the batches of a journal: the longest prefix of its rows that consists of whole batches
/// with the numbers 1, 2, 3 and so on. The result also says whether rows follow this prefix. A
/// stream of more than `MOST_ROWS` rows is refused as `TooManyRows`. Each batch takes only the
/// memory that its changes need. Rows after the batches aren't kept.
pub fn read_journal<R: Read + Drop>(alloc: Global, reader: R) -> Result<Journal, ReadError>
    ensures whole { IfOk result (λ journal. IfSome (R.remaining reader) (λ bytes.
        IsJournal (rows_of bytes) journal.batches.items journal.rest)) }
    ensures few { OnOk result (IfSome (R.remaining reader) (λ bytes.
        length (rows_of bytes) ≤ MOST_ROWS)) }
    ensures too_many { result ≡ Err ReadError.TooManyRows → IfSome (R.remaining reader) (λ bytes.
        MOST_ROWS < length (rows_of bytes)) }
    ensures most { IfOk result (λ journal. length journal.batches.items ≤ MOST_ROWS) }
{
    let mut journal = JournalReader::new(alloc, reader);
    let mut batch = Batch {
        number: 0,
        changes: Vec::new(alloc),
    };
    read_whole(alloc, &mut journal, &mut batch)
}

/// Reads the batches that a reader hasn't returned yet. Each of them is read into `batch` first.
fn read_whole<R: Read>(
    alloc: Global,
    journal: &mut JournalReader<R>,
    batch: &mut Batch,
) -> Result<Journal, ReadError>
    requires { CanRead journal.old }
    ensures whole { IfOk result (λ read. (all : Option (List (List (List ℕ))))
        → HasGiven R.remaining all journal.old []
        → IfSome all (λ rows. IsJournal rows read.batches.items read.rest
        × (length rows ≤ MOST_ROWS))) }
    ensures too_many { result ≡ Err ReadError.TooManyRows → (all : Option (List (List (List ℕ))))
        → HasGiven R.remaining all journal.old [] → IfSome all (λ rows. MOST_ROWS < length rows) }
    ensures most { IfOk result (λ read. length read.batches.items ≤ MOST_ROWS) }
    ensures device { result ≡ Err ReadError.Device → HasFailed journal.new }
{
    let mut batches = Vec::new(alloc);
    let rest = read_batches(alloc, journal, batch, &mut batches)?;
    Ok(Journal { batches, rest })
}

/// Reads the batches that a reader hasn't returned yet, one after the other, into `batches`.
fn read_batches<R: Read>(
    alloc: Global,
    journal: &mut JournalReader<R>,
    batch: &mut Batch,
    batches: &mut Vec<Batch>,
) -> Result<Rest, ReadError>
    requires can { CanRead journal.old }
    requires fresh { batches.old.items ≡ [] }
    ensures whole { IfOk result (λ rest. (all : Option (List (List (List ℕ))))
        → HasGiven R.remaining all journal.old []
        → IfSome all (λ rows. IsJournal rows batches.new.items rest × (length rows ≤ MOST_ROWS))) }
    ensures too_many { result ≡ Err ReadError.TooManyRows → (all : Option (List (List (List ℕ))))
        → HasGiven R.remaining all journal.old [] → IfSome all (λ rows. MOST_ROWS < length rows) }
    ensures most { OnOk result (length batches.new.items ≤ MOST_ROWS) }
    ensures device { result ≡ Err ReadError.Device → HasFailed journal.new }
{
    loop {
        match journal.read_batch(batch)? {
            JournalStep::Batch => add(alloc, batch, batches)?,
            JournalStep::End(rest) => return Ok(rest),
        }
    }
}

/// Appends a copy of a batch to the list. The copy has only the capacity that its changes need.
fn add(alloc: Global, batch: &Batch, batches: &mut Vec<Batch>) -> Result<(), AllocError>
    ensures { OnOk result (batches.new.items ≡ batches.old.items ++ batch.now ∷ []) }
{
    batches.push(batch.copy(alloc)?)?;
    Ok(())
}
