//! `routed serve` publishes updates as they come in on standard input, and answers clients meanwhile.
//! Each client has two files: one for its requests and one for its replies. With `--book` the updates
//! are the rows of a book (`served_book.rt`).
ghost use Rattle.std.specs.Prelude.{◌<◌, ◌≤◌, length, vec_len};

use crate::bounded::unfit_of;
use crate::client_files::{ClientNames, OpenClient, check_clients, open_clients};
use crate::client_list::{client_words, list_bytes, list_text};
use crate::devices::{INPUT, NewFile, OUTPUT, created, flushed, held_places};
use crate::figures::Figures;
use crate::noted::{Fault, Noted};
use crate::options::{
    Asked, BOOK, CLIENT, Call, CommandOption, CommandText, EXCEPT, EXPLAIN, FIGURES, JOURNAL,
    PAIRS, REOPEN,
};
use crate::seats::{Closing, RunSeats, Saying, UpdatesRows};
use crate::served_book::serve_book;
use crate::stack::grow_stack;
use crate::standard_error::say_at;
use crate::stopped::{Ran, Stopped};
use cspf_serve::{
    AnswersBoth, AnswersExcept, AnswersNone, AnswersPairs, ClientError, Kinds, MOST_ASKERS, Served,
    ServedClient, ServedOptions, StreamError, run_serve_with_questions,
};
use std::sync::Wait;
use std::sync::atomic::AtomicBool;
use std::thread::Threads;
use std::{fmt, io};

/// The command with its options.
pub const COMMAND: CommandText = CommandText {
    asked: Asked::Serve,
    name: "serve",
    about: "Publishes the updates of standard input as they come in, and answers clients meanwhile",
    help: HELP,
    options: &[
        CommandOption::NewJournal,
        CommandOption::Clients,
        CommandOption::ClientsFrom,
        CommandOption::Trees,
        CommandOption::AtOnce,
        CommandOption::Except,
        CommandOption::Pairs,
        CommandOption::Reopen,
        CommandOption::Figures,
        CommandOption::Book,
        CommandOption::Begin,
        CommandOption::KeepServed,
        CommandOption::Explain,
    ],
};

/// The help text below the options.
const HELP: &str = "\
Standard input has put, drop, node, end and ask rows as in solve, and any number of them. Each batch is
written whole to the new journal, then it takes effect, and then its line is written. There are 1 to
64 clients. --client IN=OUT reads the ask rows of one from IN, and writes the line of each to OUT
before the next row is read. Each line of --clients-from FILE is an IN=OUT too, and a blank line is
refused. FILE is read to its end first, and its clients come after those of --client. Once a program
has read version V on standard output, every request that it sends after that is answered at V or
later, by any client. No client waits for a batch. A client that sends each row after it has read the
line of the row before waits for no other client. Of the rows that clients send ahead, at most N
(--at-once) are answered at once, and these clients take turns. So they don't hold up the batches.
With --except clients may also send except rows, and with --pairs pair rows, as in solve.

Lines of standard output, as in solve, and of a client's OUT:
  version V                  a batch is in effect
  ask ID vV route ..         a request is answered at version V; also none, unknown-from, unknown-to
  batch N refused: ..        as in solve; also memory, journal W if the journal failed after W bytes
                             of the batch, and stopped for every batch after that
  row N refused: ..          also for a row of a client that asks nothing
  unended K                  at the end of the updates: K changes that no end row followed

IN and OUT are files, named pipes (mkfifo) or /dev/fd/N, no name twice. IN can't have an = in its name.
No OUT is overwritten: a file that has bytes already, or that two names lead to, is refused before
anything is opened. Files are opened in the order given, IN before OUT, and the journal last. Opening a
pipe waits for its other end, so a client opens IN for writing first, then OUT for reading. A client
ends when its rows end. It also ends if its rows can't be read or its lines can't be written, and at a
line of more than 1,048,576 bytes or a quotation mark, which disturbs nobody else. Its IN and OUT are
closed then, but the other end of a /dev/fd/N sees that only when the run ends. The run ends when
standard input and all clients have ended.

With --reopen a client has one session after the other. When its rows end, or it ends early as above,
its IN and OUT are closed, and then opened again by their names, IN before OUT. Rows are numbered from
1 in each session. The versions of its replies never fall, also not from one session to the next. A
client has no further session once standard input has ended, if IN or OUT can't be opened, or if one
of them is neither a pipe nor a device. A client that waits for the other end of a pipe when standard
input ends waits on: the run ends only after a program has opened both pipes and ended its rows.

--figures FILE makes a file with a line for each client, its seat, and writes it again over the same
bytes after each published batch and each session:
  figures N version V seats K
  seat S sessions E open 0 rows R route A none B unknown-from C unknown-to D refused F version V
  end N
E sessions have ended, and open is 1 during a session. R = A + B + C + D + F. V is the last published
version, and the version of the last reply. Numbers have spaces before them. The first and the last
line have the same N, unless the file was written while it was read. If FILE can't be made or written,
the run goes on, and with --explain a line says so.

With --book standard input has the rows of routed book, and standard output has its lines. Placements
are counted, and clients ask the base with the bandwidth that the placements leave. Each accepted end,
place, release or held row makes a version and publishes one batch. So V counts published batches, and
the N of end,N,K counts batches of the base. The text of an accepted row goes to the new file of --keep,
its batch to the journal, then it takes effect, and then its lines are written. If a write to --keep
fails after W bytes, the row is refused by keep W. If a write to the journal fails, it is refused by
journal W, and the next run has the row as a whole or not at all. Each later end, place, release, held
and offer row is refused by stopped, and clients are answered on. If memory is refused at a row, the
row is refused by memory. Then the book is as before, and the row may come again.

--begin FILE has rows of a book, any number of them, which are read first. If one is refused, or changes
are open at the end, standard output has only the line that says so, and the status is 2. What the book
leaves is published in at most 5 batches, and their number is the first version. Then come over lines
for all links on which more is counted than they have. Batches of the base go on with the number after
those of FILE. A book goes on day after day:
  cat BEGIN KEPT | routed book --compact --accept-torn > NEXT
  routed serve --book --begin NEXT --keep KEPT2 --journal JOURNAL2 --client IN=OUT

Status:
  0  everything was accepted
  1  the command line was refused
  2  a row or a batch was refused, or changes were left open
  3  out of memory for the updates, standard input or output failed, a file can't be opened, the
     journal or the file of --keep exists already, or a client has no thread: then nothing is read; the
     last line of standard error is routed: stopped, and with --explain the line before it says why
With --explain a line says of each client that ended before its rows did why it ended.";

/// Serves the clients if their files can be used.
pub(crate) fn answer<T: Threads + Wait + Sync>(call: &Call<'_, '_>, handle: &T) -> Ran {
    let bytes = list_bytes(call)?;
    let text = list_text(call, &bytes)?;
    let given = call.words.get_strs(CLIENT).unwrap_or(&[]);
    let all = client_words(call.rt.alloc(), given, text)?;
    let words = all.as_slice();
    check_clients(call, words)?;
    if !grow_stack(u8::from(call.has(EXPLAIN))) {
        return Err(Stopped::Memory);
    }
    let _held = held_places(call.rt);
    match (call.has(EXCEPT), call.has(PAIRS)) {
        (false, false) => serve::<T, AnswersNone>(call, handle, words),
        (true, false) => serve::<T, AnswersExcept>(call, handle, words),
        (false, true) => serve::<T, AnswersPairs>(call, handle, words),
        (true, true) => serve::<T, AnswersBoth>(call, handle, words),
    }
}

/// Opens the file of figures, if the call gives one. If it can't be opened, the run goes on without
/// it, and with `--explain` a line says so.
fn open_figures(call: &Call<'_, '_>, seats: usize) -> Result<Option<Figures>, Stopped> {
    if !call.gives(FIGURES) {
        return Ok(None);
    }
    match Figures::open(call.rt, call.rt.alloc(), call.value(FIGURES), seats)? {
        Ok(figures) => Ok(Some(figures)),
        Err(fault) => {
            explain_figures(call, &fault);
            Ok(None)
        }
    }
}

/// With `--explain`, writes which call on the file of figures failed.
fn explain_figures(call: &Call<'_, '_>, fault: &Fault) {
    if call.has(EXPLAIN) {
        say_at(call.rt, FIGURES, call.value(FIGURES), fault);
    }
}

/// Publishes the updates of standard input, and answers the clients meanwhile. Each batch is first
/// written to the new journal. All files are opened before the first row is read. The journal is
/// opened last.
fn serve<T: Threads + Wait + Sync, K: Kinds + Send>(
    call: &Call<'_, '_>,
    handle: &T,
    words: &[&str],
) -> Ran
    requires { (0 < length words.now) × (length words.now ≤ MOST_ASKERS) }
{
    let seats = RunSeats {
        rt: call.rt,
        handle,
        reopens: call.has(REOPEN),
        has_ended: AtomicBool::new(false),
        figures: open_figures(call, words.len())?,
    };
    if let Some(figures) = &seats.figures {
        figures.write(handle);
    }
    let clients = open_clients(call, words, &seats)?;
    let ran = if call.has(BOOK) {
        serve_book::<T, K>(call, &seats, clients, words)
    } else {
        serve_batches::<T, K>(call, &seats, clients, words)
    };
    if let Some(figures) = &seats.figures {
        if let Some(fault) = figures.fault(handle) {
            explain_figures(call, &fault);
        }
    }
    ran
}

/// Publishes the batches of standard input, and answers the clients meanwhile. The new journal is made
/// last.
fn serve_batches<'a, T: Threads + Wait + Sync, K: Kinds + Send>(
    call: &Call<'_, '_>,
    seats: &'a RunSeats<'a, T>,
    clients: Vec<OpenClient<'a, T>>,
    words: &[&str],
) -> Ran
    requires { (0 < vec_len clients) × (vec_len clients ≤ MOST_ASKERS) }
{
    let mut journal = created(call, JOURNAL)?;
    let ran = run::<T, K>(call, seats, &mut journal, clients, words);
    flushed(&mut journal, ran)
}

/// Reads the updates and serves the clients. With `--explain` it also writes which clients ended
/// before their rows ended.
fn run<'a, T: Threads + Wait + Sync, K: Kinds + Send>(
    call: &Call<'_, '_>,
    seats: &'a RunSeats<'a, T>,
    journal: &mut NewFile,
    clients: Vec<OpenClient<'a, T>>,
    words: &[&str],
) -> Ran
    requires { (0 < vec_len clients) × (vec_len clients ≤ MOST_ASKERS) }
{
    let rt = call.rt;
    let mut updates = Noted::new(INPUT, rt.reader());
    let mut said = Noted::new(OUTPUT, io::writer(rt));
    let ran = run_serve_with_questions::<_, _, _, _, _, T, K>(
        seats.handle,
        rt.alloc(),
        UpdatesRows::new(&mut updates, &seats.has_ended),
        Saying::new(&mut said, seats),
        journal,
        clients,
        ServedOptions {
            trees: call.trees(),
            at_once: call.at_once(seats.handle),
        },
    );
    match ran {
        Ok(served) => {
            let Served {
                status,
                updates: ended,
                said: _,
                journal: _,
                clients,
                steps: _,
            } = served;
            explain_ends(call, words, &clients);
            match ended {
                Ok(()) => Ok(status),
                Err(error) => Err(Stopped::Stream(error).by(updates.fault(), said.fault())),
            }
        }
        Err((error, _said, _journal, _clients)) => Err(Stopped::Serve(error)),
    }
}

/// With `--explain`, writes which clients ended before their rows ended, and why.
pub(crate) fn explain_ends<T>(
    call: &Call<'_, '_>,
    words: &[&str],
    clients: &[ServedClient<Closing<'_, T>>],
) {
    if !call.has(EXPLAIN) {
        return;
    }
    for index in 0..words.len() {
        if let Some(client) = clients.get(index) {
            explain_end(call.rt, index.saturating_add(1), words[index], client);
        }
    }
}

/// If a client ended before its rows ended, writes why. A line was too long, a row had a quotation
/// mark, or there was an error. An error of a file is written with the file's path.
fn explain_end<T>(
    rt: &HostRuntime,
    number: usize,
    word: &str,
    client: &ServedClient<Closing<'_, T>>,
) {
    let Err(error) = client.end else {
        return;
    };
    let names = ClientNames::read(word);
    match error {
        ClientError::Stream(StreamError::Read) => match unfit_of(&client.replies.cause) {
            Some(unfit) => say_end(rt, number, names.requests, &unfit),
            None => say_end(rt, number, names.requests, &error),
        },
        ClientError::Stream(StreamError::Write | StreamError::Flush) => {
            say_end(rt, number, names.replies, &error)
        }
        _ => {
            let _ = eprintln!(rt; "routed: client {number}: {error}");
        }
    }
}

/// Writes why a client ended. `path` is the file whose read or write failed.
fn say_end<W: fmt::Display>(rt: &HostRuntime, number: usize, path: &str, why: &W) {
    let _ = eprintln!(rt; "routed: client {number}: {path}: {why}");
}
