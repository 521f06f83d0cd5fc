//! Rows of the text formats: which row a `csv` record says, or why the record says no row.
//!
//! `specs/Rows.antt` defines the row of a record. `specs/FieldValues.antt` defines the value that a
//! field spells, and `specs/Words.antt` defines the words of a refusal. `specs/Says.antt` has the
//! formats of the rows, and `specs/RowRefusals.antt` has the reasons why a record is refused.
//! `specs/Steps.antt` defines what a row asks for. Reading a row allocates no memory.
//!
//! `specs/Records.antt` defines how a stream of bytes is cut into records. `put_all` writes a whole
//! text to a writer. This repository writes all its texts with `put_all`.
//!
//! `specs/BatchText.antt` defines the text of a batch. `specs/Journal.antt` defines the batches of
//! a journal, and `specs/JournalLaws.antt` has the laws of journals. `specs/GivenBatches.antt`
//! defines which batches a reader has returned. `specs/Requests.antt` defines the requests of a
//! stream.
#![tactic(auto)]

mod batch;
mod field;
mod journal;
mod laws;
mod limits;
mod object;
mod output;
mod read_error;
mod record_error;
mod records;
mod request_reader;
mod requests_error;
mod row;
mod row_error;
mod step;
mod stream_faults;

pub use batch::batch_text;
pub use journal::{
    Journal, JournalReader, JournalStep, Rest, journals_are_one, journals_are_read_back,
    read_journal,
};
pub use laws::{rows_are_read, rows_are_read_back, rows_are_refused, rows_have_one_step};
pub use limits::MOST_ROWS;
pub use output::put_all;
pub use read_error::ReadError;
pub use record_error::RecordError;
pub use records::{next_record, open_records};
pub use request_reader::read_requests;
pub use requests_error::RequestsError;
pub use row::Row;
pub use row_error::{HopsFault, RowError};
pub use step::Step;
