//! A journal: the writer of the batches' texts, and the list of the recorded batches.
ghost use Rattle.std.specs.Prelude.{◌≡◌, ◌++◌, ◌∷◌, [], false, length, IfOk, OnOk, IfErr, OnErr};
ghost use Rattle.std.specs.Io.KnownBytes.{Appends};
ghost use Rattle.cspf_rows.specs.BatchText.{batch_text};
ghost use Rattle.cspf_journal.specs.Histories.{IsHistory, MayFollow};
ghost use Rattle.cspf_journal.specs.JournalStates.{IsNotRecorded};
ghost use Rattle.cspf_journal.specs.KnownBatches.{known_with};

use crate::batch_list::BatchList;
use crate::known::Known;
use crate::not_recorded::NotRecorded;
use cspf_model::Batch;
use cspf_rows::put_all;
use std::io::Write;
use std::marker::Model;

/// A writer, and the list of the batches whose texts the writer has. Only `record` makes a longer
/// list known. So only recorded batches can be shown to askers, which answer requests.
#[derive(Drop)]
pub struct JournalWriter<W> {
    writer: W,
    list: BatchList,
    stopped: bool,
}

impl<W> Model for JournalWriter<W> {
    ghost use Rattle.cspf_journal.specs.JournalStates.{JournalState};

    ghost Value = { JournalState W };

    ghost view = { λ j. record {
      batches = j.list.batches;
      source = j.list.source;
      stopped = j.stopped;
      writer = j.writer;
    } };
}

impl<W> JournalWriter<W> {
    /// A journal with this writer. Its recorded batches are the batches of `list`.
    pub(crate) fn new(writer: W, list: BatchList) -> JournalWriter<W>
        ensures { result ≡ record {
          batches = list.batches;
          source = list.source;
          stopped = false;
          writer = writer;
        } }
    {
        JournalWriter {
            writer,
            list,
            stopped: false,
        }
    }

    /// Whether the writer failed.
    pub fn is_stopped(&self) -> bool
        ensures { result ≡ self.now.stopped }
    {
        self.stopped
    }

    /// The writer in its state after the last call.
    pub fn into_writer(self) -> W
        ensures { result ≡ self.writer }
    {
        let JournalWriter {
            writer,
            list: _list,
            stopped: _,
        } = self;
        writer
    }
}

impl<W: Write> JournalWriter<W> {
    /// Records a batch. First the batch is added to the shared list of batches. If that list
    /// already has more batches than this journal has recorded, the error is `Lost` and nothing is
    /// written. Otherwise the whole text of the batch is written, and the batches up to this batch
    /// are returned. The call allocates no memory, and always returns.
    pub fn record(&mut self, batch: &Batch, text: &[u8]) -> Result<Known, NotRecorded>
        requires going { self.old.stopped ≡ false }
        requires next { MayFollow self.old.batches batch.now }
        requires text { text.now ≡ batch_text batch.now }
        ensures source { self.new.source ≡ self.old.source }
        ensures going { OnOk result (self.new.stopped ≡ false) }
        ensures list { OnOk result (self.new.batches ≡ self.old.batches ++ batch.now ∷ []) }
        ensures known { IfOk result (λ known.
            known ≡ known_with self.old.batches self.old.source batch.now) }
        ensures written { OnOk result (Appends
            (W.contents self.old.writer) (W.contents self.new.writer) (batch_text batch.now)) }
        ensures same { OnErr result (self.new.batches ≡ self.old.batches) }
        ensures why { IfErr result (IsNotRecorded W.contents self.old self.new batch.now) }
    {
        let Some(longer) = self.list.add(batch) else {
            return Err(NotRecorded::Lost);
        };
        if let Err(written) = put_all(&mut self.writer, text) {
            self.stopped = true;
            return Err(NotRecorded::Writer { written });
        }
        self.list.keep(&longer);
        Ok(longer)
    }
}
