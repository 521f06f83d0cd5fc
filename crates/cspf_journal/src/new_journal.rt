//! A new journal: its writer, its empty list of batches, and the right to show its batches.
ghost use Rattle.std.specs.Prelude.{◌≡◌, [], false};

use crate::batch_list::BatchList;
use crate::journal_writer::JournalWriter;
use crate::rights::RightToShow;
use std::marker::Model;

/// A writer, a list that has no batches yet, and the right to show the batches of that list to
/// askers (which answer requests).
#[derive(Drop)]
pub struct NewJournal<W> {
    writer: W,
    list: BatchList,
    right: RightToShow,
}

impl<W> Model for NewJournal<W> {
    ghost use Rattle.std.specs.Prelude.{◌≡◌, []};
    ghost use Rattle.cspf_journal.specs.JournalStates.{NewJournalState};

    ghost Value = { NewJournalState W };

    ghost view = { λ j. record { source = j.list.source; writer = j.writer } };

    ghost invariant = { λ j. (j.list.batches ≡ [])
        × (j.right ≡ record { batches = []; source = j.list.source }) };
}

impl<W> NewJournal<W> {
    /// Makes a journal with this writer, and with a new list that has no batches.
    pub fn new(writer: W) -> NewJournal<W>
        ensures { result.writer ≡ writer }
    {
        let (list, right) = BatchList::new();
        NewJournal {
            writer,
            list,
            right,
        }
    }

    /// Returns the journal, and the only right to show the journal's batches to askers (which
    /// answer requests).
    pub fn start(self) -> (JournalWriter<W>, RightToShow)
        ensures journal { result.0 ≡ record {
          batches = [];
          source = self.source;
          stopped = false;
          writer = self.writer;
        } }
        ensures right { result.1 ≡ record { batches = []; source = self.source } }
    {
        let NewJournal {
            writer,
            list,
            right,
        } = self;
        (JournalWriter::new(writer, list), right)
    }
}
