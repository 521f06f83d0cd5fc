//! The count of published batches. It is a counter that threads share.
ghost use Rattle.std.specs.Prelude.{◌≡◌, ◌<◌, ◌≤◌, length, MatchBool};
ghost use Rattle.cspf_journal.specs.HistoryRule.{count_word};
ghost use Rattle.cspf_journal.specs.JournalSteps.{batches_of, count_of, AreJournalSteps, AreStepsUpTo};
ghost use Rattle.cspf_journal.specs.declared.log_step.LogStep.TheVariants.{Published, Read};

use crate::history::{CountBatch, History, NoGain, ReadCount};
use crate::log_step::{LogStep, RowOfReader};
use logbook::{Offer, Seen, Word};
use std::marker::Model;

/// The number of published batches of a journal. Only the owner of the journal's `RightToCount`
/// raises this count, by one for each batch. In contracts the value is its journal's identity (the
/// source), since the count is only known when it is read or raised.
#[derive(Drop)]
pub struct PublishedCount {
    word: Word<LogStep, u64, History>,
}

impl Model for PublishedCount {
    ghost use Rattle.std.specs.Prelude.{◌≡◌};
    ghost use Rattle.logbook.specs.Pages.{Book, book_coded};
    ghost use Rattle.cspf_journal.specs.HistoryRule.{count_word};

    ghost Value = { Book };

    ghost coded = { book_coded };

    ghost view = { λ c. c.word.book };

    ghost invariant = { λ c. c.word ≡ count_word c.word.book };
}

impl PublishedCount {
    /// Makes the count of published batches from the shared counter `word`.
    pub(crate) fn new(word: Word<LogStep, u64, History>) -> PublishedCount
        requires { word ≡ count_word word.book }
        ensures { result ≡ word.book }
    {
        PublishedCount { word }
    }

    /// Counts one more batch as published, in one atomic step, and returns true. If the count
    /// before the call isn't `count` minus 1, nothing changes, and the result is false.
    pub(crate) fn move_to(&self, count: u32, seen: &mut Seen<LogStep, u64, History>) -> bool
        requires source { seen.old.book ≡ self.now }
        requires recorded { (0 < count) × (count ≤ length (batches_of seen.old.log)) }
        ensures source { seen.new.book ≡ seen.old.book }
        ensures counted { MatchBool result
            (AreStepsUpTo seen.old.log seen.new.log (Published count)
            × (count_of seen.new.log ≡ count) × AreJournalSteps seen.new.log)
            (Unit {0}) }
    {
        let mut offer: Offer<LogStep, u64, History, NoGain> = seen.plain::<NoGain, u32, CountBatch>(
            &count,
        );
        let mut pen = seen.no_pen();
        let old = u64::from(count - 1);
        let found = self
            .word
            .compare_exchange::<CountBatch, NoGain>(
                old,
                u64::from(count),
                seen,
                &mut offer,
                &mut pen,
            );
        found == old
    }

    /// Reads the count of published batches in one step of the journal. The step names the reader,
    /// and the row that the reader is about to answer.
    pub(crate) fn read(&self, seen: &mut Seen<LogStep, u64, History>, row: RowOfReader) -> u32
        requires { seen.old.book ≡ self.now }
        ensures source { seen.new.book ≡ seen.old.book }
        ensures read { AreStepsUpTo seen.old.log seen.new.log (Read row.reader row.place result) }
        ensures recorded { result ≤ length (batches_of seen.new.log) }
        ensures journal { AreJournalSteps seen.new.log }
    {
        let mut offer: Offer<LogStep, u64, History, NoGain> = seen.plain::<
            NoGain,
            RowOfReader,
            ReadCount,
        >(&row);
        self.word.load::<ReadCount, NoGain>(seen, &mut offer) as u32
    }
}
