//! The run of a server with a book.

ghost use Rattle.std.specs.Prelude.{◌≡◌, ◌≤◌, ◌<◌, ◌⊎◌, [], false, List, Option, ℕ, IfErr, IfOk, OnOk, vec_len};
ghost use Rattle.std.specs.Io.KnownBytes.{Appends};
ghost use Rattle.std.specs.Option.{option_map};
ghost use Rattle.cspf_book_run.specs.Compacts.{IsBookRead};
ghost use Rattle.cspf_book_serve.specs.ServedBooks.{IsBeginFault, IsServerBegun, IsOtherFault, IsServedBook, begin_lines};
ghost use Rattle.cspf_rows.specs.JournalLaws.{journal_text};
ghost use Rattle.cspf_rows.specs.Records.{rows_of};

use crate::begin::{over_lines, publish_begin};
use crate::book_updates::BookUpdates;
use crate::error::ServedBookError;
use crate::shown::Shown;
use cspf_book_run::{BookRows, KeepsNothing, read_book};
use cspf_client::{Client, Permits, Reopens};
use cspf_publish::{MOST_ASKERS, Publisher};
use cspf_questions::Kinds;
use cspf_serve::{
    Counted, RunError, Seats, Served, ServedError, ServedOptions, open_seats, serve_seats,
};
use cspf_stream::put_line;
use std::alloc::Global;
use std::io::{Read, Write};
use std::marker::Brand;
use std::sync::Wait;
use std::sync::ledger::{Blank, Ledger};
use std::thread::Threads;

/// The result of a run of a server with a book, with the writer `keep`, or why no run began, with all
/// inputs except the beginning and the updates.
pub type ServedBook<W, J, K, Q, V> = Result<
    (Served<W, J, V>, K),
    (ServedBookError, W, J, K, Vec<Client<Q, V>>),
>;

/// Reads the beginning, which has the rows of a book: none may be refused, and no change may be open
/// at its end. Then publishes the effective database of this book in at most 5 batches, and writes an
/// `over` line for each link and priority at which the placements count more than the link has. Then
/// answers the rows of `updates` as `run_book` does, while each client has a thread, which serves it
/// as in `run_serve`. Clients ask the published database, which is the effective database of the
/// book.
///
/// For each accepted row its lines are made, its text is written to `keep`, its batch to the journal,
/// and the batch is published. Then the lines are written. Lines name the book's version by how many
/// batches are published. If memory is refused at a row, the row is refused by `memory`, and the book
/// is unchanged. If memory is also refused for the line of this refusal, no later row is read. The run
/// ends when the updates and all clients have ended: `IsServedBook`.
///
/// If an error is returned, no row of the updates and of the clients was read. If it is about the rows
/// of the beginning, nothing was written.
pub fn run_serve_book<
    B: Read + Drop,
    R: Read + Drop,
    W: Write,
    J: Write,
    K: Write,
    Q: Read + Drop + Send,
    V: Reopens<Q> + Drop + Send,
    T: Threads + Wait + Sync,
    A: Kinds + Send,
>(
    rt: &T,
    alloc: Global,
    begin: B,
    updates: R,
    said: W,
    keep: K,
    journal: J,
    clients: Vec<Client<Q, V>>,
    options: ServedOptions,
) -> ServedBook<W, J, K, Q, V>
    requires { (0 < vec_len clients) × (vec_len clients ≤ MOST_ASKERS) }
    ensures served { IfOk result (λ ran. IsServedBook A.kinds (B.remaining begin)
        (R.remaining updates) W.contents K.contents J.contents Q.remaining V.contents V.reopens
        said keep journal clients.items ran.0 ran.1) }
    ensures refused { IfErr result (λ e. IsBeginFault (B.remaining begin) e.0) }
    ensures unwritten { IfErr result (λ e. IsOtherFault e.0 ⊎ ((e.1 ≡ said) × (e.2 ≡ journal))) }
    ensures back { IfErr result (λ e. (e.3 ≡ keep) × (e.4 ≡ clients)) }
{
    let book = match read_book(alloc, begin) {
        Ok(book) => book,
        Err(why) => return Err((ServedBookError::Begin(why), said, journal, keep, clients)),
    };
    let options = ServedOptions {
        trees: options.trees,
        at_once: options.at_once.max(1),
    };
    let blank = Blank::new(options.at_once as u64);
    serve_with::<_, _, _, _, _, _, _, Brand, A>(
        rt, alloc, book, updates, said, keep, journal, clients, options, blank,
    )
}

/// As `run_serve_book`, but the beginning was read, the type `L` is the ledger of the permits, and
/// `blank` has the parts of this ledger: one for each of `options.at_once` permits.
fn serve_with<
    R: Read + Drop,
    W: Write,
    J: Write,
    K: Write,
    Q: Read + Drop + Send,
    V: Reopens<Q> + Drop + Send,
    T: Threads + Wait + Sync,
    L: Ledger + Send + Sync,
    A: Kinds + Send,
>(
    rt: &T,
    alloc: Global,
    book: BookRows<KeepsNothing>,
    updates: R,
    said: W,
    keep: K,
    journal: J,
    clients: Vec<Client<Q, V>>,
    options: ServedOptions,
    blank: Blank,
) -> ServedBook<W, J, K, Q, V>
    requires clients { (0 < vec_len clients) × (vec_len clients ≤ MOST_ASKERS) }
    requires name { blank.name ≡ L.name }
    requires parts { (options.at_once ≡ blank.parts) × (options.at_once ≡ L.parts) }
    requires read { (begin : Option (List ℕ)) × IsBookRead (option_map rows_of begin) book }
    ensures served { IfOk result (λ ran. (begin : Option (List ℕ))
        → IsBookRead (option_map rows_of begin) book → IsServedBook A.kinds begin
        (R.remaining updates) W.contents K.contents J.contents Q.remaining V.contents V.reopens
        said keep journal clients.items ran.0 ran.1) }
    ensures unread { IfErr result (λ e. IsOtherFault e.0) }
    ensures back { IfErr result (λ e. (e.3 ≡ keep) × (e.4 ≡ clients)) }
{
    let (trees, at_once) = (options.trees, options.at_once as u64);
    match Permits::<T, L>::new(rt, alloc, clients.len(), at_once, blank) {
        Ok(permits) => serve_under::<_, _, _, _, _, _, _, _, A>(
            rt, alloc, &permits, book, updates, said, keep, journal, clients, trees,
        ),
        Err(_) => Err((
            ServedBookError::Served(ServedError::Run(RunError::Memory)),
            said,
            journal,
            keep,
            clients,
        )),
    }
}

/// As `run_serve_book`, but the beginning was read, and the caller passes the permits.
fn serve_under<
    R: Read + Drop,
    W: Write,
    J: Write,
    K: Write,
    Q: Read + Drop + Send,
    V: Reopens<Q> + Drop + Send,
    T: Threads + Wait + Sync,
    L: Ledger + Send + Sync,
    A: Kinds + Send,
>(
    rt: &T,
    alloc: Global,
    permits: &Permits<'_, T, L>,
    book: BookRows<KeepsNothing>,
    updates: R,
    said: W,
    keep: K,
    journal: J,
    clients: Vec<Client<Q, V>>,
    trees: usize,
) -> ServedBook<W, J, K, Q, V>
    requires clients { (0 < vec_len clients) × (vec_len clients ≤ MOST_ASKERS) }
    requires read { (begin : Option (List ℕ)) × IsBookRead (option_map rows_of begin) book }
    ensures served { IfOk result (λ ran. (begin : Option (List ℕ))
        → IsBookRead (option_map rows_of begin) book → IsServedBook A.kinds begin
        (R.remaining updates) W.contents K.contents J.contents Q.remaining V.contents V.reopens
        said keep journal clients.items ran.0 ran.1) }
    ensures unread { IfErr result (λ e. IsOtherFault e.0) }
    ensures back { IfErr result (λ e. (e.3 ≡ keep) × (e.4 ≡ clients)) }
{
    let opened = open_seats::<_, _, _, _, _, A>(rt, alloc, permits, journal, clients.len(), trees);
    let (publisher, seats) = match opened {
        Ok(opened) => opened,
        Err((error, journal)) => {
            let error = ServedBookError::Served(ServedError::Run(error));
            return Err((error, said, journal, keep, clients));
        }
    };
    let (mut publisher, mut said) = (publisher, said);
    match begin_book(rt, alloc, &book, &mut publisher, &mut said) {
        Ok(skipped) => {
            let shown = Shown {
                counted: Counted::new(publisher),
                keep,
                stopped: false,
            };
            let own = BookUpdates {
                rows: book.going_on(alloc, shown, skipped),
            };
            match serve_seats(rt, alloc, updates, said, own, clients, seats) {
                Ok(ran) => Ok(ran),
                Err((error, said, journal, keep, clients)) => {
                    Err((ServedBookError::Served(error), said, journal, keep, clients))
                }
            }
        }
        Err(error) => Err((error, said, publisher.close(rt), keep, clients)),
    }
}

/// Publishes the beginning, and then writes its `over` lines. Returns how many versions of the book
/// aren't counted where lines name a version.
fn begin_book<W: Write, J: Write, T: Wait>(
    rt: &T,
    alloc: Global,
    book: &BookRows<KeepsNothing>,
    publisher: &mut Publisher<J>,
    said: &mut W,
) -> Result<u32, ServedBookError>
    requires fresh { (publisher.old.batches ≡ []) × (publisher.old.stopped ≡ false) }
    ensures begun { IfOk result (λ skipped. IsServerBegun book.now.rows.sink.book skipped
        publisher.new.batches) }
    ensures recorded { OnOk result (Appends (J.contents publisher.old.journal)
        (J.contents publisher.new.journal) (journal_text publisher.new.batches)) }
    ensures going { OnOk result (publisher.new.stopped ≡ false) }
    ensures source { publisher.new.source ≡ publisher.old.source }
    ensures said { OnOk result (Appends (W.contents said.old) (W.contents said.new)
        (begin_lines book.now.rows.sink.book)) }
    ensures unread { IfErr result IsOtherFault }
{
    let lines = over_lines(alloc, book.book())?;
    if let Err(error) = publish_begin(rt, alloc, book.book(), publisher) {
        return Err(ServedBookError::Served(ServedError::Run(error)));
    }
    let (version, published) = (book.book().version(), publisher.version());
    if version < published {
        // This can't happen: each accepted batch of the beginning has at most as many changes as a
        // batch of a snapshot, so it needs at least as many batches.
        return Err(ServedBookError::Served(ServedError::Run(RunError::Memory)));
    }
    match put_line(lines.as_slice(), said) {
        Ok(()) => Ok(version - published),
        Err(error) => Err(ServedBookError::Said(error)),
    }
}
