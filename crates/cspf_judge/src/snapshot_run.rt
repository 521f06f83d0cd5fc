//! The run of `snapshot`: it reads a journal, and writes the few batches that make its last database.

ghost use Rattle.std.specs.Prelude.{◌≡◌, IfOk, IfErr, IfSome, OnOk, OnErr};
ghost use Rattle.std.specs.Io.KnownBytes.{Appends};
ghost use Rattle.cspf_rows.specs.JournalLaws.{journal_text};
ghost use Rattle.cspf_rows.specs.Records.{rows_of};
ghost use Rattle.cspf_judge.specs.EarlyEnds.{IfRefused, WritesFront};
ghost use Rattle.cspf_judge.specs.SnapshotRun.{IsSnapshotOf, IsSnapshotRefused, WritesSnapshot, HasBegunSnapshot};

use crate::{EarlyEnd, JudgeError, batches_of, put, refuse, snapshot};
use cspf_db::{Table, replay_into};
use cspf_model::Batch;
use cspf_rows::batch_text;
use std::alloc::Global;
use std::io::{Read, Write};

/// Writes the batches that make the journal's last database from the empty database.
/// `IsSnapshotRun` defines the lines. A journal is refused with one line if it is too long, if it
/// is torn and `accept_torn` is false, or if a batch doesn't fit. Returns the status: 2 if the
/// journal is refused, and 0 otherwise. If an error is returned, the writer has a prefix of the
/// lines, perhaps none of them. The writer isn't flushed.
pub fn run_snapshot<R: Read + Drop, W: Write>(
    alloc: Global,
    journal: R,
    accept_torn: bool,
    writer: &mut W,
) -> Result<u8, JudgeError>
    ensures whole { IfOk result (WritesSnapshot accept_torn (R.remaining journal)
        (W.contents writer.old) (W.contents writer.new)) }
    ensures stopped { OnErr result (HasBegunSnapshot accept_torn (R.remaining journal)
        (W.contents writer.old) (W.contents writer.new)) }
{
    match snapshot_of(alloc, accept_torn, journal) {
        Ok(batches) => {
            write_batches(alloc, &batches, writer)?;
            Ok(0)
        }
        Err(end) => refuse(alloc, end, writer),
    }
}

/// The batches that make the last database of the journal from the empty database.
fn snapshot_of<R: Read + Drop>(
    alloc: Global,
    accept_torn: bool,
    journal: R,
) -> Result<Vec<Batch>, EarlyEnd>
    ensures err { IfErr result (λ end. IfRefused end (λ line.
        IfSome (R.remaining journal) (λ bytes.
        IsSnapshotRefused accept_torn (rows_of bytes) line))) }
    ensures ok { IfOk result (λ batches. IfSome (R.remaining journal) (λ bytes.
        IsSnapshotOf accept_torn (rows_of bytes) batches.items)) }
{
    let batches = batches_of(alloc, journal, accept_torn)?;
    let mut table = Table::new(alloc)?;
    replay_into(&mut table, &batches)?;
    Ok(snapshot(alloc, &table)?)
}

/// Writes the texts of batches, one after the other.
fn write_batches<W: Write>(
    alloc: Global,
    batches: &[Batch],
    writer: &mut W,
) -> Result<(), JudgeError>
    ensures text { OnOk result (Appends (W.contents writer.old) (W.contents writer.new)
        (journal_text batches.now)) }
    ensures front { OnErr result (WritesFront (W.contents writer.old) (W.contents writer.new)
        (journal_text batches.now)) }
{
    for batch in batches {
        let text = batch_text(alloc, batch)?;
        put(&text, writer)?;
    }
    Ok(())
}
