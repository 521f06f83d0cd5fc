//! Answers the rows of the updates. The publisher publishes each batch, and then counts it as
//! published.

ghost use Rattle.std.specs.Prelude.{◌≡◌, []};
ghost use Rattle.cspf_stream.specs.OpenChanges.{AreOpen};
ghost use Rattle.cspf_serve.specs.UpdatesStates.{IsFresh};

use crate::line::refusal_of;
use crate::serving::counted::Counted;
use crate::serving::publishing::Publishing;
use cspf_ero::reply_line;
use cspf_model::{Batch, Request, one_refusal};
use cspf_publish::Publisher;
use cspf_rows::Row;
use cspf_stream::{Answering, BatchRefusal, Rows, Sink, StreamLine};
use csv::ByteRecord;
use std::alloc::{AllocError, Global};
use std::io::Write;
use std::marker::Model;
use std::sync::Wait;

impl<J: Write, R: Wait> Sink<R> for Counted<J> {
    ghost use Rattle.cspf_serve.specs.UpdatesStates.{publisher_spec};

    ghost spec = { publisher_spec J.contents };

    fn version(&self) -> u32 {
        self.publisher.version()
    }

    fn next_number(&self) -> u32 {
        self.publisher.version() + 1
    }

    fn is_stopped(&self) -> bool {
        self.publisher.is_stopped()
    }

    fn accept(
        &mut self,
        rt: &R,
        alloc: Global,
        batch: &Batch,
    ) -> Result<Result<Vec<u8>, BatchRefusal>, AllocError> {
        let version = batch.number;
        let line = StreamLine::Version { version }.bytes(alloc)?;
        match self.publisher.apply(rt, alloc, batch) {
            Ok(_) => {
                self.steps.learn(&self.publisher.steps());
                Ok(Ok(line))
            }
            Err(error) => Ok(Err(refusal_of(error))),
        }
    }

    fn reply(&mut self, alloc: Global, request: &Request) -> Result<Vec<u8>, AllocError> {
        let answer = self.publisher.answer(alloc, request)?;
        reply_line(alloc, answer.id, answer.version, &answer.outcome)
    }
}

/// The state of a run's updates: the publisher, the open changes (those without their `end` row),
/// and the number of refused rows and batches.
pub(super) struct Updates<J> {
    rows: Rows<Counted<J>>,
}

impl<J> Model for Updates<J> {
    ghost use Rattle.cspf_serve.specs.UpdatesStates.{KeptUpdates};

    ghost Value = { KeptUpdates J };

    ghost view = { λ u. record {
      sink = u.rows.sink;
      changes = u.rows.changes;
      answers = u.rows.answers;
      refused = u.rows.refused;
    } };
}

impl<J: Write, R: Wait> Answering<R> for Updates<J> {
    type Fault = AllocError;

    ghost use Rattle.std.specs.Prelude.{◌<◌};
    ghost use Rattle.cspf_serve.specs.UpdatesStates.{IsUpdateTaken, IsUpdateFailed};

    ghost answers = { IsUpdateTaken J.contents };

    ghost fails = { λ fault. IsUpdateFailed J.contents };

    // A row adds at most 1 to each of three numbers: of open changes (without their `end` row), of
    // answers, and of refusals.
    ghost may_stand = { λ place k. (k.changes.count < place) × (k.answers < place) × (k.refused < place) };

    fn answer(
        &mut self,
        rt: &R,
        alloc: Global,
        place: u64,
        fields: &ByteRecord,
    ) -> Result<Vec<u8>, AllocError> {
        // Law: there is at most one reason to refuse a batch, and there is none if the batch fits
        // the database.
        one_refusal();
        self.rows.answer(rt, alloc, place, &Row::read(fields))
    }
}

impl<J: Write> Updates<J> {
    /// The state before the first row: no change is open (waiting for its `end` row), and nothing
    /// was refused.
    pub(crate) fn new(alloc: Global, publisher: Publisher<J>) -> Updates<J>
        ensures publisher { result.sink.publisher ≡ publisher }
        ensures open { AreOpen result.changes [] }
        ensures fresh { IsFresh result }
    {
        Updates {
            rows: Rows::new(alloc, Counted::new(publisher)),
        }
    }
}

impl<J: Write, T: Wait> Publishing<T> for Updates<J> {
    type Journal = J;

    type Rest = ();

    ghost use Rattle.cspf_serve.specs.UpdatesSource.{updates_have_one_source};
    ghost use Rattle.cspf_serve.specs.UpdatesStates.{updates_spec};

    ghost spec = { updates_spec J.contents };

    fn last_line(&self, alloc: Global) -> Result<Vec<u8>, AllocError> {
        self.rows.changes.last_line(alloc)
    }

    fn has_refused(&self) -> bool {
        self.rows.refused > 0 || self.rows.changes.count > 0
    }

    fn end(self) -> (Counted<J>, ()) {
        let Updates { rows } = self;
        let Rows {
            sink,
            changes: _,
            answers: _,
            refused: _,
        } = rows;
        (sink, ())
    }

    ghost one_source = { updates_have_one_source J.contents };
}
