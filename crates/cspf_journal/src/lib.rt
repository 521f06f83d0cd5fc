//! The journal of a publisher: the list of its batches, the known prefixes of this list, and the
//! writer of the batches' texts.
//!
//! Only `NewJournal::new` makes a list of batches, and each list has its own identity, its
//! *source*. Only `JournalWriter::record` makes a longer list known, after the whole text of the
//! last batch is written. Nothing else makes a list or a `Known`, which is a known prefix of a
//! list. So no other crate can show a batch to askers before its text is written, not even in a
//! call that never returns.
//!
//! The count of published batches is a counter that threads share. The owner of a journal's
//! `RightToCount` raises the counter by one for each batch that it publishes. A `Known` that reads
//! the counter then knows at least as many batches as the counter says. Each raising and each
//! reading of the counter is a step of the journal, so a later reading never finds a smaller count.
//! The step of a reading names the reader, and the row that the reader is about to answer.
//!
//! A journal makes two `CopyRight`s. Each copy of the publisher's table has one of them, so there
//! are only two copies.
//!
//! `specs/Histories.antt` says which lists may be published, and `specs/KnownBatches.antt` says
//! which batches of a list are known. `specs/JournalStates.antt` has the values by which contracts
//! describe a journal. `specs/JournalSteps.antt` defines the steps, and `specs/Readings.antt` says
//! which count a reading finds.
#![tactic(auto)]

mod batch_list;
mod history;
mod journal_writer;
mod known;
mod laws;
mod log_step;
mod new_journal;
mod not_recorded;
mod published_count;
mod rights;
mod seen_steps;

pub use journal_writer::JournalWriter;
pub use known::Known;
pub use laws::readings_find_what_was_counted;
pub use log_step::{LogStep, RowOfReader};
pub use new_journal::NewJournal;
pub use not_recorded::NotRecorded;
pub use published_count::PublishedCount;
pub use rights::{CopyRight, RightToCount, RightToShow};
pub use seen_steps::SeenSteps;
