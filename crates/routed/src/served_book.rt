//! `routed serve --book`: the updates are the rows of a book. Each accepted row is kept, and its batch
//! is published.
ghost use Rattle.std.specs.Prelude.{◌<◌, ◌≤◌, vec_len};

use crate::book::{explain_fault, write_refused};
use crate::client_files::OpenClient;
use crate::devices::{INPUT, NewFile, OUTPUT, created, flushed, opened};
use crate::noted::{Fault, Noted};
use crate::options::{BEGIN, Call, JOURNAL, KEEP};
use crate::seats::{RunSeats, Saying, UpdatesRows};
use crate::serve::explain_ends;
use crate::stopped::{Ran, Stopped};
use cspf_book_serve::{ServedBookError, run_serve_book};
use cspf_serve::{Kinds, MOST_ASKERS, RunError, Served, ServedError, ServedOptions};
use std::io;
use std::io::Read;
use std::sync::Wait;
use std::thread::Threads;

/// Answers the rows of standard input as a book, and the clients meanwhile. The book begins with the
/// rows of a file, if the call gives one. The new files of the accepted rows and of the batches are
/// made last.
pub(crate) fn serve_book<'a, T: Threads + Wait + Sync, K: Kinds + Send>(
    call: &Call<'_, '_>,
    seats: &'a RunSeats<'a, T>,
    clients: Vec<OpenClient<'a, T>>,
    words: &[&str],
) -> Ran
    requires { (0 < vec_len clients) × (vec_len clients ≤ MOST_ASKERS) }
{
    if call.gives(BEGIN) {
        let mut begin = opened(call, BEGIN)?;
        run::<_, T, K>(call, seats, &mut begin, clients, words)
    } else {
        run::<_, T, K>(
            call,
            seats,
            &mut Noted::new(BEGIN, io::empty()),
            clients,
            words,
        )
    }
}

/// As `serve_book`, with the rows that the book begins with.
fn run<'a, B: Read, T: Threads + Wait + Sync, K: Kinds + Send>(
    call: &Call<'_, '_>,
    seats: &'a RunSeats<'a, T>,
    begin: &mut Noted<B>,
    clients: Vec<OpenClient<'a, T>>,
    words: &[&str],
) -> Ran
    requires { (0 < vec_len clients) × (vec_len clients ≤ MOST_ASKERS) }
{
    let mut keep = created(call, KEEP)?;
    let mut journal = created(call, JOURNAL)?;
    let ran = answer::<B, T, K>(call, seats, begin, &mut keep, &mut journal, clients, words);
    explain_fault(call, KEEP, &keep);
    explain_fault(call, JOURNAL, &journal);
    let ran = flushed(&mut keep, ran);
    flushed(&mut journal, ran)
}

/// Reads the beginning and the updates, and serves the clients.
fn answer<'a, B: Read, T: Threads + Wait + Sync, K: Kinds + Send>(
    call: &Call<'_, '_>,
    seats: &'a RunSeats<'a, T>,
    begin: &mut Noted<B>,
    keep: &mut NewFile,
    journal: &mut NewFile,
    clients: Vec<OpenClient<'a, T>>,
    words: &[&str],
) -> Ran
    requires { (0 < vec_len clients) × (vec_len clients ≤ MOST_ASKERS) }
{
    let rt = call.rt;
    let mut updates = Noted::new(INPUT, rt.reader());
    let mut said = Noted::new(OUTPUT, io::writer(rt));
    let ran = run_serve_book::<_, _, _, _, _, _, _, T, K>(
        seats.handle,
        rt.alloc(),
        &mut *begin,
        UpdatesRows::new(&mut updates, &seats.has_ended),
        Saying::new(&mut said, seats),
        keep,
        &mut *journal,
        clients,
        ServedOptions {
            trees: call.trees(),
            at_once: call.at_once(seats.handle),
        },
    );
    match ran {
        Ok((served, _keep)) => {
            let Served {
                status,
                updates: ended,
                said: _,
                journal: _,
                clients,
                steps: _,
            } = served;
            explain_ends(call, words, &clients);
            match ended {
                Ok(()) => Ok(status),
                Err(error) => Err(Stopped::Stream(error).by(updates.fault(), said.fault())),
            }
        }
        Err((error, _said, _journal, _keep, _clients)) => {
            not_begun(call, error, begin.fault(), journal.fault(), said.fault())
        }
    }
}

/// Writes the line that refuses the beginning, or returns why no run began. The other arguments are
/// the last calls on the beginning, on the journal and on standard output that failed, if any.
fn not_begun(
    call: &Call<'_, '_>,
    error: ServedBookError,
    begin: Option<Fault>,
    journal: Option<Fault>,
    said: Option<Fault>,
) -> Ran {
    match error {
        ServedBookError::Begin(why) => write_refused(call, BEGIN, why, begin),
        ServedBookError::Served(ServedError::Run(RunError::Device)) => {
            Err(Stopped::Run(RunError::Device).by(None, journal))
        }
        ServedBookError::Served(error) => Err(Stopped::Serve(error)),
        ServedBookError::Said(error) => Err(Stopped::Stream(error).by(None, said)),
    }
}
