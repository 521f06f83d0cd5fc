//! The seats of the clients of `serve`: what they share, and how a seat opens its files again.

ghost use Rattle.std.specs.Prelude.{◌≡◌, IsTrue};

use crate::bounded::{Bounded, Cause};
use crate::client_files::ClientNames;
use crate::figures::{CountedLine, Figures, line_of, version_of};
use cspf_serve::{Client, EndOfRequests, Reopens, Replies};
use std::fs::{File, OpenOptions};
use std::io::{Read, Write};
use std::sync::Wait;
use std::sync::atomic::{AtomicBool, Ordering};
use std::{fs, io};

/// What all seats of a run share.
#[derive(Drop)]
pub struct RunSeats<'a, T> {
    pub rt: &'a HostRuntime,
    pub handle: &'a T,
    /// Whether a seat opens its files again after a session.
    pub reopens: bool,
    /// Whether the updates have ended. After that no seat opens its files again.
    pub has_ended: AtomicBool,
    /// The figures of the run, with `--figures`.
    pub figures: Option<Figures>,
}

impl<'a, T> RunSeats<'a, T> {
    /// Whether a seat opens its files again after a session that ends now.
    fn may_reopen(&self) -> bool
        ensures { IsTrue result → IsTrue self.now.reopens }
    {
        self.reopens && !self.has_ended.load(Ordering::SeqCst)
    }
}

/// Notes the end of the updates when it is dropped.
struct EndMark<'a>(&'a AtomicBool);

impl Drop for EndMark<'_> {
    fn drop(self) {
        self.0.store(true, Ordering::SeqCst);
        let EndMark(_) = self;
    }
}

/// A reader of the updates. The run drops it when the updates have ended, and this is noted.
#[derive(Drop)]
pub struct UpdatesRows<'a, R> {
    rows: R,
    _end: EndMark<'a>,
}

impl<'a, R> UpdatesRows<'a, R> {
    /// A reader that sets `has_ended` when it is dropped.
    pub(crate) fn new(rows: R, has_ended: &'a AtomicBool) -> UpdatesRows<'a, R> {
        UpdatesRows {
            rows,
            _end: EndMark(has_ended),
        }
    }
}

impl<R: Read> Read for UpdatesRows<'_, R> {
    ghost remaining = { λ r. R.remaining r.rows };

    fn read(&mut self, buf: &mut [u8]) -> io::Result<usize> {
        self.rows.read(buf)
    }
}

/// A writer of the lines that answer updates. After lines with a new version it writes the figures.
#[derive(Drop)]
pub struct Saying<'a, W, T> {
    said: W,
    seats: &'a RunSeats<'a, T>,
    /// The version of the line of which a part was written.
    version: Option<u64>,
}

impl<'a, W, T: Wait> Saying<'a, W, T> {
    /// A writer whose next byte begins a line.
    pub(crate) fn new(said: W, seats: &'a RunSeats<'a, T>) -> Saying<'a, W, T> {
        Saying {
            said,
            seats,
            version: None,
        }
    }

    /// Notes that `put` bytes of the rest of a line, `rest`, were written.
    fn note(&mut self, rest: &[u8], put: usize)
        ensures { self.new.said ≡ self.old.said }
    {
        let Some(figures) = &self.seats.figures else {
            return;
        };
        if self.version.is_none() {
            self.version = version_of(rest);
        }
        if put >= rest.len() {
            if let Some(version) = self.version {
                figures.publish(self.seats.handle, version);
            }
            self.version = None;
        }
    }
}

impl<W: Write, T: Wait> Write for Saying<'_, W, T> {
    ghost contents = { λ w. W.contents w.said };

    fn write(&mut self, buf: &[u8]) -> io::Result<usize> {
        let put = self.said.write(buf)?;
        self.note(buf, put);
        Ok(put)
    }

    fn flush(&mut self) -> io::Result<()> {
        self.said.flush()
    }
}

/// A seat: its number, counted from 0, and the names of its files.
#[derive(Clone, Copy)]
pub struct RunSeat<'a, T> {
    pub seats: &'a RunSeats<'a, T>,
    pub number: usize,
    pub names: ClientNames<'a>,
}

/// The file of replies of a session. The file is closed after the session has ended. So the reader of a pipe sees
/// the end of the file.
#[derive(Drop)]
pub struct Closing<'a, T> {
    file: Option<File>,
    /// Why no more of the session's requests were read.
    pub cause: Cause,
    seat: RunSeat<'a, T>,
    /// The kind and the version of the line of which a part was written.
    line: Option<(CountedLine, u64)>,
}

impl<'a, T: Wait> Closing<'a, T> {
    /// The file of replies of a session.
    pub(crate) fn new(file: File, cause: Cause, seat: RunSeat<'a, T>) -> Closing<'a, T> {
        if let Some(figures) = &seat.seats.figures {
            figures.begin(seat.number);
        }
        Closing {
            file: Some(file),
            cause,
            seat,
            line: None,
        }
    }

    /// Notes that `put` bytes of the rest of a line, `rest`, were written.
    fn note(&mut self, rest: &[u8], put: usize) {
        let Some(figures) = &self.seat.seats.figures else {
            return;
        };
        let (line, version) = match self.line {
            Some(begun) => begun,
            None => line_of(rest),
        };
        if put >= rest.len() {
            figures.count(self.seat.number, line, version);
            self.line = None;
        } else {
            self.line = Some((line, version));
        }
    }
}

impl<T: Wait> Write for Closing<'_, T> {
    fn write(&mut self, buf: &[u8]) -> io::Result<usize> {
        let Some(file) = &mut self.file else {
            return Ok(0);
        };
        let put = file.write(buf)?;
        self.note(buf, put);
        Ok(put)
    }

    fn flush(&mut self) -> io::Result<()> {
        match &mut self.file {
            Some(file) => file.flush(),
            None => Ok(()),
        }
    }
}

impl<T: Wait> Replies for Closing<'_, T> {
    ghost use Rattle.std.specs.Prelude.{None};

    ghost has_ended = { λ closing. closing.file ≡ None };

    fn end(&mut self, _requests: EndOfRequests) {
        self.file = None;
        if let Some(figures) = &self.seat.seats.figures {
            figures.end(self.seat.seats.handle, self.seat.number);
        }
    }
}

/// Whether the path leads to a plain file. Its rows would be read a second time, and its lines would
/// be overwritten.
fn is_plain(rt: &HostRuntime, path: &str) -> bool {
    match fs::metadata(rt, path) {
        Ok(found) => found.is_file(),
        Err(_) => false,
    }
}

/// Opens the two files of a seat again, the file of requests first. Returns `None` if one of them is
/// a plain file or can't be opened. No file is made.
fn open_again(rt: &HostRuntime, names: ClientNames<'_>) -> Option<(File, File)> {
    if is_plain(rt, names.requests) || is_plain(rt, names.replies) {
        return None;
    }
    let requests = File::open(rt, names.requests).ok()?;
    let replies = OpenOptions::new().write(true).open(rt, names.replies).ok()?;
    Some((requests, replies))
}

impl<'a, T: Wait> Reopens<Bounded<File>> for Closing<'a, T> {
    ghost use Rattle.std.specs.Prelude.{OnOk};

    ghost reopens = { λ closing result. OnOk result (IsTrue closing.seat.seats.now.reopens) };

    fn reopen(self) -> Result<Client<Bounded<File>, Closing<'a, T>>, Closing<'a, T>> {
        let seats = self.seat.seats;
        if !seats.may_reopen() {
            return Err(self);
        }
        let Some((requests, replies)) = open_again(seats.rt, self.seat.names) else {
            return Err(self);
        };
        let Ok((requests, cause)) = Bounded::again(&self.cause, requests) else {
            return Err(self);
        };
        let replies = Closing::new(replies, cause, self.seat);
        Ok(Client { requests, replies })
    }
}
