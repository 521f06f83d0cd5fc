//! A client of a server: its streams, the run that answers its rows, and its result.

ghost use Rattle.std.specs.Prelude.{◌≡◌, ◌+◌, ◌-◌, ◌^◌, ◌<◌, ◌↔◌, min, None, Some, Err, IsTrue, OnOk, IfErr};
ghost use Rattle.cspf_publish.specs.AskerStates.{known_of};
ghost use Rattle.cspf_publish.specs.KnownBatches.{AreFirstOf};
ghost use Rattle.cspf_rows.specs.Records.{IsPlain, rows_left};
ghost use Rattle.cspf_stream.specs.RowAnswers.{AreAllAnswered};
ghost use Rattle.cspf_client.specs.ClientRows.{IsClientAnswered};
ghost use Rattle.cspf_client.specs.ClientRuns.{IsClientRun, IsClientStopped};
ghost use Rattle.cspf_client.specs.SessionStates.{HasGoneForward};
ghost use Rattle.cspf_client.specs.ServingStates.{IsReady, HasMet};
ghost use Rattle.cspf_client.specs.Sessions.{HasSessions, IsReopened};

use crate::entrance::{Entrance, NotedRequests};
use crate::session::Session;
use crate::{ClientError, EndOfRequests, Permits, Reopens, Replies};
use cspf_publish::{Asker, Known, SeenSteps, Told};
use cspf_questions::Kinds;
use cspf_rows::open_records;
use cspf_stream::answer_rows;
use csv::Reader;
use std::alloc::Global;
use std::cell::Cell;
use std::io::Read;
use std::marker::{Model, PhantomData};
use std::sync::Wait;
use std::sync::ledger::Ledger;

/// The streams of one session of a client.
#[derive(Drop)]
pub struct Client<Q, V> {
    /// The stream from which the rows of requests are read.
    pub requests: Q,
    /// The writer that gets the line for each row.
    pub replies: V,
}

/// A client, with the asker that computes the replies to the client's requests. One thread runs the
/// client.
#[derive(Drop)]
pub struct ServingClient<Q, V> {
    session: Session,
    /// The stream of requests, until the client runs. Its `Reader` is made only when the client
    /// runs, because the buffer of a `Reader` would otherwise be moved together with the client.
    /// The stream is dropped once it has ended, so that the program that writes the requests isn't
    /// left waiting.
    requests: Option<Q>,
    replies: V,
    end: Result<(), ClientError>,
    /// How many rows were refused in earlier sessions, but at most `u64::MAX`.
    refused_before: u64,
}

impl<Q, V> Model for ServingClient<Q, V> {
    ghost use Rattle.cspf_client.specs.ServingStates.{ServingState};

    ghost Value = { ServingState Q V };

    ghost view = { λ c. record {
      state = c.session;
      requests = c.requests;
      replies = c.replies;
      end = c.end;
      refused_before = c.refused_before;
    } };
}

/// The result of a client after its last session.
#[derive(Drop)]
pub struct ServedClient<V> {
    /// The writer of the replies of the last session.
    pub replies: V,
    /// How the stream of the last session ended.
    pub end: Result<(), ClientError>,
    /// How many rows of the client were refused in all sessions, but at most `u64::MAX`.
    pub refused: u64,
    /// The steps of the journal that the client has seen, up to the step in which it last read the
    /// count of published batches.
    pub steps: SeenSteps,
    /// The batches that the client knew after its last row.
    pub known: Known,
}

/// Answers all rows that the reader still has.
fn answer_all<Q: Read + Drop, V: Replies, R: Wait, L: Ledger, K: Kinds>(
    entrance: &Entrance<'_, R, L, K>,
    alloc: Global,
    requests: &mut Reader<Q>,
    replies: &mut V,
    session: &mut Session,
) -> Result<(), ClientError>
    requires plain { IsPlain requests.old }
    requires state { session.old.refused < 1 }
    ensures whole { OnOk result (AreAllAnswered (IsClientAnswered K.kinds) (rows_left Q.remaining requests.old)
        session.old session.new (V.contents replies.old) (V.contents replies.new)) }
    ensures stopped { IfErr result (λ why. IsClientStopped K.kinds why (rows_left Q.remaining requests.old)
        session.old session.new (V.contents replies.old) (V.contents replies.new)) }
{
    match answer_rows(entrance, alloc, requests, replies, session) {
        Ok(()) => Ok(()),
        Err(stop) => Err(ClientError::of(stop)),
    }
}

impl<Q: Read + Drop, V: Replies> ServingClient<Q, V> {
    /// A client with this number that has read no row yet.
    pub fn new(asker: Asker, number: u64, client: Client<Q, V>) -> ServingClient<Q, V>
        ensures ready { IsReady result }
        ensures number { result.state.client ≡ number }
        ensures known { result.state.known ≡ known_of asker }
        ensures steps { result.state.steps.source ≡ asker.source }
        ensures requests { result.requests ≡ Some client.requests }
        ensures replies { result.replies ≡ client.replies }
        ensures first { result.refused_before ≡ 0 }
    {
        ServingClient {
            session: Session::new(asker, number),
            requests: Some(client.requests),
            replies: client.replies,
            end: Ok(()),
            refused_before: 0,
        }
    }

    /// Answers all rows of the session's stream of requests, one by one. For an `ask` row, the client
    /// reads the count of published batches, and then answers at a version that is at least this
    /// count. Any other row is refused with a line. Each line is flushed before the next row is read.
    /// The client waits for its own streams. If it sends requests ahead, it waits for a permit before
    /// each search, and has no permit while it reads or writes. At the end it drops the reader of the
    /// requests, and then calls `end` of the replies' writer.
    pub fn run<'a, R: Wait, L: Ledger, K: Kinds>(
        &mut self,
        alloc: Global,
        permits: &'a Permits<'a, R, L>,
    )
        requires { IsReady self.old }
        ensures run { IsClientRun K.kinds Q.remaining V.contents self.old self.new }
        ensures forward { HasGoneForward self.old.state self.new.state }
        ensures closed { self.new.requests ≡ None }
        // The run calls `end` of the replies' writer after the last line is written.
        ensures ended { V.has_ended self.new.replies }
        ensures before { self.new.refused_before ≡ self.old.refused_before }
    {
        let Some(requests) = self.requests.take() else {
            // This can't happen: a client that hasn't run yet still has its stream of requests.
            return;
        };
        let entrance = Entrance {
            permits,
            was_read: Cell::new(false),
            kinds: PhantomData::<K>,
        };
        let noted = NotedRequests {
            requests,
            was_read: &entrance.was_read,
        };
        let mut rows = open_records(alloc, noted);
        self.end = answer_all(
            &entrance,
            alloc,
            &mut rows,
            &mut self.replies,
            &mut self.session,
        );
        self.replies.end(EndOfRequests::drop_reader(rows));
    }

    /// Counts the refused rows of all sessions so far, but at most to `u64::MAX`.
    fn all_refused(&self) -> u64
        ensures { result ≡ min (self.now.refused_before + self.now.state.refused) (2 ^ 64 - 1) }
    {
        self.refused_before.saturating_add(self.session.refused())
    }

    /// The steps of the journal that the client has seen, up to the step in which it last read the
    /// count of published batches.
    pub fn steps(&self) -> &SeenSteps
        ensures { result.now ≡ self.now.state.steps }
    {
        self.session.steps()
    }

    /// The batches that the client knows.
    pub fn known(&self) -> &Known
        ensures { result.now ≡ self.now.state.known }
    {
        self.session.known()
    }

    /// Learns of all published batches, `told`, after the last row. A client that already knows more
    /// batches ends with the error `Ahead`.
    pub fn meet(&mut self, told: Told)
        requires { told.source ≡ self.old.state.known.source }
        ensures others { self.new ≡ record self.old {
          state = record self.old.state { known = self.new.state.known };
          end = self.new.end;
        } }
        ensures known { AreFirstOf self.new.state.known self.old.state.known }
        ensures met { HasMet told self.old self.new }
    {
        if !self.session.meet(told) {
            self.end = Err(ClientError::Ahead);
        }
    }

    /// The client's result. `known` has the batches that the client knew after its last row.
    pub fn close(self, known: Known) -> ServedClient<V>
        ensures { result ≡ record {
          replies = self.replies;
          end = self.end;
          refused = min (self.refused_before + self.state.refused) (2 ^ 64 - 1);
          steps = self.state.steps;
          known = known;
        } }
    {
        let refused = self.all_refused();
        let ServingClient {
            session,
            requests: _,
            replies,
            end,
            refused_before: _,
        } = self;
        ServedClient {
            replies,
            end,
            refused,
            steps: session.steps().copy(),
            known,
        }
    }
}

impl<Q: Read + Drop, V: Reopens<Q>> ServingClient<Q, V> {
    /// Serves the client's sessions. In each session, answers all rows of the stream of requests.
    /// After a session, `reopen` of the replies' writer returns the streams of the next session, in
    /// which the client knows the batches that it knew before. After the last session, and after a
    /// session in which the client couldn't enter the published replica, returns the client.
    pub fn serve<'a, R: Wait, L: Ledger, K: Kinds>(
        self,
        alloc: Global,
        permits: &'a Permits<'a, R, L>,
    ) -> ServingClient<Q, V>
        requires ready { IsReady self }
        requires first { self.refused_before ≡ 0 }
        ensures sessions { HasSessions K.kinds V.reopens Q.remaining V.contents self result }
        ensures forward { HasGoneForward self.state result.state }
        ensures ended { V.has_ended result.replies }
    {
        let mut client = self;
        for _ in permits.handle().forever() {
            client.run::<R, L, K>(alloc, permits);
            match client.reopened() {
                Ok(next) => client = next,
                Err(last) => return last,
            }
        }
        unreachable!()
    }

    /// Begins the next session: returns the client before the session's first row. If there is no
    /// next session, or if the client couldn't enter the published replica, returns the client
    /// unchanged as an error.
    fn reopened(self) -> Result<ServingClient<Q, V>, ServingClient<Q, V>>
        requires { V.has_ended self.replies }
        ensures few { self.state.refused < 2 ^ 64 }
        ensures next { IsReopened V.reopens self result }
    {
        let refused = self.refused_before.saturating_add(self.session.refused());
        if has_no_entry(&self.end) {
            return Err(self);
        }
        let ServingClient {
            session,
            requests: ended,
            replies,
            end,
            refused_before,
        } = self;
        match replies.reopen() {
            Ok(Client { requests, replies }) => Ok(ServingClient {
                session: session.reopened(),
                requests: Some(requests),
                replies,
                end: Ok(()),
                refused_before: refused,
            }),
            Err(replies) => Err(ServingClient {
                session,
                requests: ended,
                replies,
                end,
                refused_before,
            }),
        }
    }
}

/// Whether a client ended because it couldn't enter the published replica.
fn has_no_entry(end: &Result<(), ClientError>) -> bool
    ensures { IsTrue result ↔ (end.now ≡ Err ClientError.NoEntry) }
{
    matches!(end, Err(ClientError::NoEntry))
}
