//! The run of `serve`: the calling thread answers the updates, and each client has a thread that
//! answers its requests. `serve_seats` is this run for each state that answers a stream of rows and
//! publishes batches.

ghost use Rattle.std.specs.Prelude.{◌≡◌, ◌≤◌, ◌<◌, ◌↔◌, ℕ, [], false, All, IfOk, IfErr, IfSome, IsSome, IsTrue, sum_by, vec_len, vec_capacity};
ghost use Rattle.std.specs.List.{AllZip};
ghost use mathlib.Core.List.{IsPrefix};
ghost use Rattle.logbook.specs.Pages.{Book};
ghost use Rattle.cspf_client.specs.SessionStates.{AreFirstSteps};
ghost use Rattle.cspf_publish.specs.JournalSteps.{AreJournalSteps};
ghost use Rattle.cspf_rows.specs.Records.{IsPlain, rows_left};
ghost use Rattle.cspf_serve.specs.ClientSeats.{AreSeats};
ghost use Rattle.cspf_serve.specs.Publishing.{AreAllCounted};
ghost use Rattle.cspf_serve.specs.PublishingRuns.{IsLastPut, IsPublishingRun, IsStatusOf, IsStreamRun};
ghost use Rattle.cspf_serve.specs.RunFaults.{IsOpeningFault};
ghost use Rattle.cspf_serve.specs.ServedRun.{IsServedFault, IsServedRun};
ghost use Rattle.cspf_serve.specs.ServedSteps.{IsAnswered, IsClosedRun, IsOfSource, IsServedEnd};

use crate::RunError;
use crate::serving::counted::Counted;
use crate::serving::publishing::Publishing;
use crate::serving::updates::Updates;
use crate::streams::opening::open_for;
use cspf_client::{Client, Permits, Reopens, Replies, ServedClient, ServingClient};
use cspf_jobs::{Doer, Go, Meanwhile, NoThread, run_all};
use cspf_publish::{Asker, MOST_ASKERS, Publisher, SeenSteps};
use cspf_questions::{AnswersNone, Kinds};
use cspf_rows::open_records;
use cspf_stream::{StreamError, answer_rows, put_line};
use csv::Reader;
use std::alloc::{AllocError, Global};
use std::io::{Read, Write};
use std::marker::{Brand, Model, PhantomData};
use std::sync::Wait;
use std::sync::ledger::{Blank, Ledger};
use std::thread::Threads;
use thiserror::Error;

/// The options of a run over updates and clients.
#[derive(Clone, Copy, Debug)]
pub struct ServedOptions {
    /// The most trees of lower bounds that the publisher and the askers together keep.
    pub trees: usize,
    /// The most requests that clients sent ahead (before they had the lines of earlier requests) and
    /// that are answered at once. 0 counts as 1.
    pub at_once: usize,
}

/// Why no run over updates and clients began.
#[derive(Clone, Copy, Debug, PartialEq, Eq, Error)]
pub enum ServedError {
    /// The publisher wasn't opened, or memory was refused.
    #[error("{0}")]
    Run(RunError),
    /// The system had no thread for a client.
    #[error("client {client}: no thread")]
    NoThread {
        /// The number of the client; clients count from 1.
        client: usize,
    },
}

/// The result of a run over updates and clients.
pub struct Served<W, J, V> {
    /// 0 if all rows and batches of all streams were accepted, and no change is open (without its
    /// `end` row) at the end. Otherwise the status is 2.
    pub status: u8,
    /// How the stream of updates ended.
    pub updates: Result<(), StreamError>,
    /// The writer of the lines that answer updates.
    pub said: W,
    /// The writer of the journal.
    pub journal: J,
    /// The results of the clients after their last sessions, in the order of the clients.
    pub clients: Vec<ServedClient<V>>,
    /// The steps of the journal that the publisher and all clients have seen. A step records a
    /// batch, counts a batch as published, or reads that count. These steps use no memory when the
    /// program runs.
    pub steps: SeenSteps,
}

/// A client's seat: all that the thread of the client needs to serve the client's sessions.
#[derive(Drop)]
struct ClientSeat<'a, T, L: Ledger, K> {
    /// The permits of the run. The client takes one for each request that it sent ahead.
    permits: &'a Permits<'a, T, L>,
    alloc: Global,
    asker: Asker,
    /// The number of the client; clients count from 1.
    number: usize,
    /// The kinds of questions that are answered.
    kinds: PhantomData<K>,
}

impl<'a, T, L: Ledger, K> Model for ClientSeat<'a, T, L, K> {
    ghost use Rattle.cspf_serve.specs.ClientSeats.{SeatState};

    ghost Value = { SeatState };

    ghost view = { λ s. record { asker = s.asker; number = s.number } };
}

impl<'a, Q: Read + Drop, V: Reopens<Q>, T: Wait, L: Ledger, K: Kinds> Doer<Client<Q, V>>
    for ClientSeat<'a, T, L, K> {
    type Output = ServingClient<Q, V>;

    ghost ready = { λ _ _ _. Unit {0} };

    ghost done = { λ s client c. IsAnswered K.kinds V.reopens Q.remaining V.contents s.asker.source s.number client c };

    fn work(self, _go: &Go, client: Client<Q, V>) -> ServingClient<Q, V> {
        let ClientSeat {
            permits,
            alloc,
            asker,
            number,
            kinds: _,
        } = self;
        ServingClient::new(asker, number as u64, client).serve::<T, L, K>(alloc, permits)
    }
}

/// The memory that is allocated before any client starts: a seat for each client (all that its
/// thread needs), and capacity for the states and the results of the clients. In contracts it is the
/// list of the seats.
#[derive(Drop)]
pub struct Seats<'a, Q, V, T, L: Ledger, K> {
    seats: Vec<ClientSeat<'a, T, L, K>>,
    serving: Vec<ServingClient<Q, V>>,
    served: Vec<ServedClient<V>>,
}

impl<'a, Q, V, T, L: Ledger, K> Model for Seats<'a, Q, V, T, L, K> {
    ghost use Rattle.std.specs.Prelude.{◌≡◌, ◌≤◌, [], List, vec_len, vec_capacity};
    ghost use Rattle.cspf_serve.specs.ClientSeats.{SeatState, AreNumberedSeats};

    ghost Value = { List SeatState };

    ghost view = { λ s. s.seats.items };

    ghost invariant = { λ s. AreNumberedSeats 1 s.seats.items
        × (s.serving.items ≡ []) × (vec_len s.seats ≤ vec_capacity s.serving)
        × (s.served.items ≡ []) × (vec_len s.seats ≤ vec_capacity s.served) };
}

/// Makes a seat for each asker. A seat has all that the thread of one client needs, and the asker
/// answers the client's requests. The seats are numbered from 1.
fn seat_all<'a, Q: Drop, V: Drop, T, L: Ledger, K>(
    alloc: Global,
    permits: &'a Permits<'a, T, L>,
    askers: Vec<Asker>,
) -> Result<Seats<'a, Q, V, T, L, K>, AllocError>
    ensures seats { IfOk result (λ made. (source : Book) → All (λ a. a.source ≡ source) askers.items
        → AreSeats source (vec_len askers) made) }
    ensures trees { IfOk result (λ made. sum_by (λ s. s.asker.most_trees) made
        ≡ sum_by (λ a. a.most_trees) askers.items) }
{
    let count = askers.len();
    let serving = Vec::with_capacity(alloc, count)?;
    let served = Vec::with_capacity(alloc, count)?;
    let mut seats = Vec::new(alloc);
    for asker in askers {
        let number = seats.len() + 1;
        seats.push(ClientSeat {
            permits,
            alloc,
            asker,
            number,
            kinds: PhantomData::<K>,
        })?;
    }
    Ok(Seats {
        seats,
        serving,
        served,
    })
}

/// Returns the list of all steps of the journal that the publisher and the clients have seen.
fn all_steps<J: Write, Q: Read + Drop, V: Replies + Drop>(
    counted: &Counted<J>,
    serving: &[ServingClient<Q, V>],
) -> SeenSteps
    requires { All (IsOfSource counted.now.publisher.source) serving.now }
    ensures journal { AreJournalSteps result.steps }
    ensures updates { IsPrefix counted.now.steps.steps result.steps }
    ensures counted { AreAllCounted counted.now.publisher result }
    ensures clients { All (λ c. AreFirstSteps result c.state.steps) serving.now }
{
    let mut all = counted.steps();
    for client in serving {
        all.learn(client.steps());
    }
    all
}

/// Lets each client learn of all published batches, and returns the clients' results.
fn close_all<J: Write, Q: Read + Drop, V: Replies + Drop>(
    counted: &mut Counted<J>,
    serving: Vec<ServingClient<Q, V>>,
    room: Vec<ServedClient<V>>,
) -> Vec<ServedClient<V>>
    requires source { All (IsOfSource counted.old.publisher.source) serving.items }
    requires none { room.items ≡ [] }
    requires room { vec_len serving ≤ vec_capacity room }
    ensures closed { AllZip (IsServedEnd counted.old.publisher.batches) serving.items
        result.items }
    ensures same { counted.new ≡ counted.old }
{
    let mut served = room;
    for client in serving {
        let mut client = client;
        let known = client.known().copy();
        client.meet(counted.tell());
        served.push_reserved(client.close(known));
    }
    served
}

/// Whether no row of the clients was refused.
fn are_accepted<V>(clients: &[ServedClient<V>]) -> bool
    ensures { IsTrue result ↔ All (λ c. c.refused ≡ 0) clients.now }
{
    clients.iter().all(|client| client.refused == 0)
}

/// Returns 0 if neither the updates nor a client had refusals. Otherwise returns 2. `refused` says
/// whether the updates had refusals.
fn status_of<V>(refused: bool, clients: &[ServedClient<V>]) -> u8
    ensures { IsStatusOf (IsTrue refused) clients.now result }
{
    if refused {
        return 2;
    }
    if are_accepted(clients) { 0 } else { 2 }
}

/// Writes the last line after the updates. Does nothing if this line is empty.
fn say_last<W: Write, T, A: Publishing<T>>(
    alloc: Global,
    said: &mut W,
    updates: &A,
) -> Result<(), StreamError>
    ensures { IsLastPut result (A.spec.last updates.now) (W.contents said.old) (W.contents said.new) }
{
    match updates.last_line(alloc) {
        Ok(line) => put_line(line.as_slice(), said),
        Err(_) => Err(StreamError::Memory),
    }
}

/// The stream that the calling thread answers, and the state that answers it.
struct OwnStream<'a, R, W, T, A> {
    rt: &'a T,
    alloc: Global,
    /// The stream of updates, until it has ended. Then the stream is dropped, while clients may
    /// still ask.
    rows: Option<Reader<R>>,
    said: W,
    updates: A,
}

impl<'a, R: Read + Drop, W: Write, T, A: Publishing<T>> Meanwhile for OwnStream<'a, R, W, T, A> {
    type Output = Result<(), StreamError>;

    ghost ready = { λ _ p. IsSome p.rows × IfSome p.rows IsPlain × A.may_stand 1 p.updates };

    ghost ran = { λ p ended q. IfSome p.rows (λ rows. IsStreamRun A.answers A.fails A.spec.last ended (rows_left R.remaining rows) p.updates q.updates (W.contents p.said) (W.contents q.said)) };

    fn run(&mut self, _go: &Go) -> Result<(), StreamError> {
        let Some(mut rows) = self.rows.take() else {
            // This can't happen: the stream of updates is there until the run.
            return Ok(());
        };
        answer_updates(
            self.rt,
            self.alloc,
            &mut rows,
            &mut self.said,
            &mut self.updates,
        )
    }
}

/// Answers all rows of the updates, and then writes the last line.
fn answer_updates<R: Read, W: Write, T, A: Publishing<T>>(
    rt: &T,
    alloc: Global,
    rows: &mut Reader<R>,
    said: &mut W,
    updates: &mut A,
) -> Result<(), StreamError>
    requires plain { IsPlain rows.old }
    requires state { A.may_stand 1 updates.old }
    ensures { IsStreamRun A.answers A.fails A.spec.last result (rows_left R.remaining rows.old)
        updates.old updates.new (W.contents said.old) (W.contents said.new) }
{
    match answer_rows(rt, alloc, rows, said, updates) {
        Ok(()) => say_last(alloc, said, updates),
        Err(stop) => Err(StreamError::from(stop)),
    }
}

/// Opens a publisher over a journal, and makes a seat for each client, with all that the client's
/// thread needs. The publisher and the clients' askers (which answer requests) together keep at
/// most `trees` trees of lower bounds.
///
/// An error returns the journal, to which nothing was written.
pub fn open_seats<'a, J: Write, Q: Drop, V: Drop, T: Wait, L: Ledger, K>(
    rt: &T,
    alloc: Global,
    permits: &'a Permits<'a, T, L>,
    journal: J,
    clients: usize,
    trees: usize,
) -> Result<(Publisher<J>, Seats<'a, Q, V, T, L, K>), (RunError, J)>
    requires { (0 < clients) × (clients ≤ MOST_ASKERS) }
    ensures publisher { IfOk result (λ made.
        (made.0.batches ≡ []) × (made.0.stopped ≡ false) × (made.0.journal ≡ journal)) }
    ensures seats { IfOk result (λ made. AreSeats made.0.source clients made.1) }
    ensures trees { IfOk result (λ made. sum_by (λ s. s.asker.most_trees) made.1 ≤ trees) }
    ensures error { IfErr result (λ e. IsOpeningFault e.0) }
    ensures journal { IfErr result (λ e. e.1 ≡ journal) }
{
    match open_for(rt, alloc, journal, clients, trees) {
        Ok((publisher, askers)) => match seat_all(alloc, permits, askers) {
            Ok(seats) => Ok((publisher, seats)),
            Err(_) => Err((RunError::Memory, publisher.close(rt))),
        },
        Err(refused) => Err(refused),
    }
}

/// Makes the result of a run after the updates and all clients have ended. Also returns what
/// `updates` has beside its publisher.
fn close_run<
    W,
    J: Write,
    Q: Read + Drop,
    V: Replies + Drop,
    T: Wait,
    A: Publishing<T, Journal = J>,
>(
    rt: &T,
    ended: Result<(), StreamError>,
    said: W,
    updates: A,
    serving: Vec<ServingClient<Q, V>>,
    room: Vec<ServedClient<V>>,
) -> (Served<W, J, V>, A::Rest)
    requires source { All (IsOfSource (A.spec.publisher updates).source) serving.items }
    requires none { room.items ≡ [] }
    requires room { vec_len serving ≤ vec_capacity room }
    ensures { IsClosedRun A.spec ended said updates serving.items result.0 result.1 }
{
    let refused = updates.has_refused();
    let (mut counted, rest) = updates.end();
    let steps = all_steps(&counted, serving.as_slice());
    let clients = close_all(&mut counted, serving, room);
    let served = Served {
        status: status_of(refused, clients.as_slice()),
        updates: ended,
        said,
        journal: counted.close(rt),
        clients,
        steps,
    };
    (served, rest)
}

/// Answers the rows of a stream by `updates`, while each client of `clients` has a thread, which
/// serves it as in `run_serve`. The publisher of `updates` and `seats` are from one call of
/// `open_seats`. This publisher may have published batches since then. When the rows have ended,
/// their reader is dropped. The run ends when the rows and all clients have ended:
/// `IsPublishingRun`. Also returns what `updates` has beside its publisher.
///
/// There is an error only if the system has no thread for a client, which the error names. Then
/// nothing was read, and the publisher is closed. The error returns the writer `said`, the
/// publisher's journal, what `updates` has beside its publisher, and the clients.
pub fn serve_seats<
    R: Read + Drop,
    W: Write,
    J: Write,
    Q: Read + Drop + Send,
    V: Reopens<Q> + Drop + Send,
    T: Threads + Wait + Sync,
    L: Ledger + Send + Sync,
    K: Kinds + Send,
    A: Publishing<T, Journal = J>,
>(
    rt: &T,
    alloc: Global,
    rows: R,
    said: W,
    updates: A,
    clients: Vec<Client<Q, V>>,
    seats: Seats<'_, Q, V, T, L, K>,
) -> Result<(Served<W, J, V>, A::Rest), (ServedError, W, J, A::Rest, Vec<Client<Q, V>>)>
    requires clients { 0 < vec_len clients }
    requires seats { AreSeats (A.spec.publisher updates).source (vec_len clients) seats }
    requires state { A.may_stand 1 updates }
    requires invariant { A.spec.invariant updates }
    ensures served { IfOk result (λ ran. IsPublishingRun A.spec A.answers A.fails K.kinds
        (R.remaining rows) W.contents Q.remaining V.contents V.reopens said updates clients.items
        ran.0 ran.1) }
    ensures error { IfErr result (λ e. (client : ℕ) × (e.0 ≡ ServedError.NoThread client)
        × (0 < client) × (client ≤ vec_len clients)) }
    ensures back { IfErr result (λ e. (e.1 ≡ said) × (e.2 ≡ (A.spec.publisher updates).journal)
        × (e.3 ≡ A.spec.rest updates) × (e.4 ≡ clients)) }
{
    let Seats {
        seats,
        serving,
        served,
    } = seats;
    let mut own = OwnStream {
        rt,
        alloc,
        rows: Some(open_records(alloc, rows)),
        said,
        updates,
    };
    let ran = run_all(rt, seats, clients, serving, &mut own);
    let OwnStream {
        rt: _,
        alloc: _,
        rows: _,
        said,
        updates,
    } = own;
    match ran {
        Ok((serving, ended)) => Ok(close_run(rt, ended, said, updates, serving, served)),
        Err((NoThread { job }, clients)) => {
            let error = ServedError::NoThread { client: job };
            let (counted, rest) = updates.end();
            Err((error, said, counted.close(rt), rest, clients))
        }
    }
}

/// As `run_serve`, but the caller passes the permits.
fn serve_under<
    R: Read + Drop,
    W: Write,
    J: Write,
    Q: Read + Drop + Send,
    V: Reopens<Q> + Drop + Send,
    T: Threads + Wait + Sync,
    L: Ledger + Send + Sync,
    K: Kinds + Send,
>(
    rt: &T,
    alloc: Global,
    permits: &Permits<'_, T, L>,
    updates: R,
    said: W,
    journal: J,
    clients: Vec<Client<Q, V>>,
    trees: usize,
) -> Result<Served<W, J, V>, (ServedError, W, J, Vec<Client<Q, V>>)>
    requires { (0 < vec_len clients) × (vec_len clients ≤ MOST_ASKERS) }
    ensures served { IfOk result (IsServedRun K.kinds (R.remaining updates) W.contents J.contents
        Q.remaining V.contents V.reopens said journal clients.items) }
    ensures error { IfErr result (λ e. IsServedFault (vec_len clients) e.0) }
    ensures back { IfErr result (λ e. (e.1 ≡ said) × (e.2 ≡ journal) × (e.3 ≡ clients)) }
{
    let opened = open_seats::<_, _, _, _, _, K>(rt, alloc, permits, journal, clients.len(), trees);
    let (publisher, seats) = match opened {
        Ok(opened) => opened,
        Err((error, journal)) => return Err((ServedError::Run(error), said, journal, clients)),
    };
    let own = Updates::new(alloc, publisher);
    match serve_seats(rt, alloc, updates, said, own, clients, seats) {
        Ok((served, ())) => Ok(served),
        Err((error, said, journal, (), clients)) => Err((error, said, journal, clients)),
    }
}

/// As `run_serve`, but the type `L` is the ledger of the permits, and `blank` has the parts of this
/// ledger: one for each of `options.at_once` permits.
fn serve_with<
    R: Read + Drop,
    W: Write,
    J: Write,
    Q: Read + Drop + Send,
    V: Reopens<Q> + Drop + Send,
    T: Threads + Wait + Sync,
    L: Ledger + Send + Sync,
    K: Kinds + Send,
>(
    rt: &T,
    alloc: Global,
    updates: R,
    said: W,
    journal: J,
    clients: Vec<Client<Q, V>>,
    options: ServedOptions,
    blank: Blank,
) -> Result<Served<W, J, V>, (ServedError, W, J, Vec<Client<Q, V>>)>
    requires clients { (0 < vec_len clients) × (vec_len clients ≤ MOST_ASKERS) }
    requires name { blank.name ≡ L.name }
    requires parts { (options.at_once ≡ blank.parts) × (options.at_once ≡ L.parts) }
    ensures served { IfOk result (IsServedRun K.kinds (R.remaining updates) W.contents J.contents
        Q.remaining V.contents V.reopens said journal clients.items) }
    ensures error { IfErr result (λ e. IsServedFault (vec_len clients) e.0) }
    ensures back { IfErr result (λ e. (e.1 ≡ said) × (e.2 ≡ journal) × (e.3 ≡ clients)) }
{
    let (trees, at_once) = (options.trees, options.at_once as u64);
    match Permits::<T, L>::new(rt, alloc, clients.len(), at_once, blank) {
        Ok(permits) => serve_under::<_, _, _, _, _, _, _, K>(
            rt, alloc, &permits, updates, said, journal, clients, trees,
        ),
        Err(_) => {
            let error = ServedError::Run(RunError::Memory);
            Err((error, said, journal, clients))
        }
    }
}

/// Publishes updates as they come in, and writes each batch to the journal first. Each client has
/// its own asker and thread, which answer its requests in one session after the other: after each
/// session, `reopen` of the writer of its replies returns the streams of the next session. When the
/// updates have ended, their reader is dropped. No client waits for the publisher. A client
/// that sends each request after it has the line of the one before waits for no other client. Of
/// the requests that clients send ahead, at most `options.at_once` are answered at once, and the
/// clients take turns. The publisher and the askers together keep at most `options.trees` trees of
/// lower bounds.
/// The run ends when the updates and all clients have ended: `IsServedRun`.
///
/// If an error is returned, nothing was read. The error returns all inputs except the updates.
pub fn run_serve<
    R: Read + Drop,
    W: Write,
    J: Write,
    Q: Read + Drop + Send,
    V: Reopens<Q> + Drop + Send,
    T: Threads + Wait + Sync,
>(
    rt: &T,
    alloc: Global,
    updates: R,
    said: W,
    journal: J,
    clients: Vec<Client<Q, V>>,
    options: ServedOptions,
) -> Result<Served<W, J, V>, (ServedError, W, J, Vec<Client<Q, V>>)>
    requires { (0 < vec_len clients) × (vec_len clients ≤ MOST_ASKERS) }
    ensures served { IfOk result (IsServedRun (record { except = false; pair = false }) (R.remaining updates) W.contents J.contents
        Q.remaining V.contents V.reopens said journal clients.items) }
    ensures error { IfErr result (λ e. IsServedFault (vec_len clients) e.0) }
    ensures back { IfErr result (λ e. (e.1 ≡ said) × (e.2 ≡ journal) × (e.3 ≡ clients)) }
{
    run_serve_with_questions::<_, _, _, _, _, _, AnswersNone>(
        rt, alloc, updates, said, journal, clients, options,
    )
}

/// As `run_serve`, but the clients' questions of the kinds `K` are answered, too.
pub fn run_serve_with_questions<
    R: Read + Drop,
    W: Write,
    J: Write,
    Q: Read + Drop + Send,
    V: Reopens<Q> + Drop + Send,
    T: Threads + Wait + Sync,
    K: Kinds + Send,
>(
    rt: &T,
    alloc: Global,
    updates: R,
    said: W,
    journal: J,
    clients: Vec<Client<Q, V>>,
    options: ServedOptions,
) -> Result<Served<W, J, V>, (ServedError, W, J, Vec<Client<Q, V>>)>
    requires { (0 < vec_len clients) × (vec_len clients ≤ MOST_ASKERS) }
    ensures served { IfOk result (IsServedRun K.kinds (R.remaining updates) W.contents J.contents
        Q.remaining V.contents V.reopens said journal clients.items) }
    ensures error { IfErr result (λ e. IsServedFault (vec_len clients) e.0) }
    ensures back { IfErr result (λ e. (e.1 ≡ said) × (e.2 ≡ journal) × (e.3 ≡ clients)) }
{
    let options = ServedOptions {
        trees: options.trees,
        at_once: options.at_once.max(1),
    };
    let blank = Blank::new(options.at_once as u64);
    serve_with::<_, _, _, _, _, _, Brand, K>(
        rt, alloc, updates, said, journal, clients, options, blank,
    )
}
