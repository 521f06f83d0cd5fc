//! The file of `--figures`: what each seat of `serve` has done so far. The seats count without locks,
//! and the file is written after each published batch and at the end of each session.

use crate::limited::most_bytes;
use crate::noted::Fault;
use crate::options::FIGURES;
use std::alloc::{AllocError, Global};
use std::fs::{File, OpenOptions};
use std::os::unix::fs::FileExt;
use std::sync::atomic::{AtomicU64, Ordering};
use std::sync::{Mutex, Wait};
use std::{fs, io};

/// How many digits a count may have.
const DIGITS: usize = 20;

/// How many digits a version may have.
const VERSION_DIGITS: usize = 10;

/// How many bytes a line of the file has at most.
const LINE_BYTES: usize = 320;

/// The line of a client, as far as it is counted.
#[derive(Clone, Copy)]
pub enum CountedLine {
    /// A reply with a route.
    Route,
    /// The reply that there is no route.
    NoRoute,
    /// The reply that the head-end is unknown.
    UnknownFrom,
    /// The reply that the tail-end is unknown.
    UnknownTo,
    /// A refused row.
    Refused,
}

/// Reads the number at the start of a text.
fn number_at(text: &[u8]) -> u64 {
    let mut number = 0u64;
    for byte in text {
        if !byte.is_ascii_digit() {
            return number;
        }
        number = number
            .wrapping_mul(10)
            .wrapping_add(byte.wrapping_sub(b'0') as u64);
    }
    number
}

/// The bytes after the next space, or no bytes.
fn after_space(text: &[u8]) -> &[u8] {
    for index in 0..text.len() {
        if text[index] == b' ' {
            return &text[index + 1..];
        }
    }
    &[]
}

/// Whether a client's line answers a row.
fn is_answer(line: &[u8]) -> bool {
    line.starts_with(b"ask ") || line.starts_with(b"except ") || line.starts_with(b"pair ")
}

/// The kind of a client's line, and the version of a reply. A pair counts as a route. A circuit or a
/// router that each way has counts as no route.
pub(crate) fn line_of(line: &[u8]) -> (CountedLine, u64) {
    if !is_answer(line) {
        return (CountedLine::Refused, 0);
    }
    let version = after_space(after_space(line));
    let outcome = after_space(version);
    let kind = if outcome.starts_with(b"route") || outcome.starts_with(b"pair") {
        CountedLine::Route
    } else if outcome.starts_with(b"none") || outcome.starts_with(b"each") {
        CountedLine::NoRoute
    } else if outcome.starts_with(b"unknown-from") {
        CountedLine::UnknownFrom
    } else {
        CountedLine::UnknownTo
    };
    (kind, number_at(version.get(1..).unwrap_or(&[])))
}

/// The last line of some lines. Each of them ends with a line feed.
fn last_of(lines: &[u8]) -> &[u8] {
    let mut start = 0;
    for index in 1..lines.len() {
        if lines[index - 1] == b'\n' {
            start = index;
        }
    }
    lines.get(start..).unwrap_or(&[])
}

/// The version in the lines that answer an update. It is that of a line `version V`, or the `vV` of the
/// last line, as in `ask ID vV ..` or `base N vV`. `None` if there is no version.
pub(crate) fn version_of(lines: &[u8]) -> Option<u64> {
    let line = last_of(lines);
    if let Some(version) = line.strip_prefix(b"version ".as_slice()) {
        return Some(number_at(version));
    }
    let version = after_space(after_space(line)).strip_prefix(b"v".as_slice())?;
    Some(number_at(version))
}

/// What a seat has done so far.
#[derive(Drop)]
struct SeatFigures {
    /// How many sessions have ended.
    sessions: AtomicU64,
    /// 1 if the files of a session are open, otherwise 0.
    open: AtomicU64,
    routes: AtomicU64,
    without_route: AtomicU64,
    unknown_from: AtomicU64,
    unknown_to: AtomicU64,
    /// How many rows were refused.
    refused: AtomicU64,
    /// The version of the last reply.
    version: AtomicU64,
}

impl SeatFigures {
    /// The figures of a seat that has no session yet.
    fn new() -> SeatFigures {
        SeatFigures {
            sessions: AtomicU64::new(0),
            open: AtomicU64::new(0),
            routes: AtomicU64::new(0),
            without_route: AtomicU64::new(0),
            unknown_from: AtomicU64::new(0),
            unknown_to: AtomicU64::new(0),
            refused: AtomicU64::new(0),
            version: AtomicU64::new(0),
        }
    }

    /// Counts a line that was written.
    fn count(&self, line: CountedLine, version: u64) {
        let counter = match line {
            CountedLine::Route => &self.routes,
            CountedLine::NoRoute => &self.without_route,
            CountedLine::UnknownFrom => &self.unknown_from,
            CountedLine::UnknownTo => &self.unknown_to,
            CountedLine::Refused => {
                self.refused.fetch_add(1, Ordering::Relaxed);
                return;
            }
        };
        counter.fetch_add(1, Ordering::Relaxed);
        self.version.store(version, Ordering::Relaxed);
    }
}

/// A text of lines whose fields have fixed widths.
#[derive(Drop)]
struct Fixed {
    text: Vec<u8>,
}

impl Fixed {
    /// Appends a word. The memory for the text is taken when the run begins.
    fn word(&mut self, word: &[u8]) {
        let _ = self.text.extend_from_slice(word);
    }

    /// Appends a name, and a number in this many bytes, with spaces before its digits.
    fn field(&mut self, name: &[u8], width: usize, number: u64) {
        let mut digits = [b' '; DIGITS];
        let mut rest = number;
        for index in 0..DIGITS {
            if rest > 0 || index == 0 {
                digits[DIGITS - 1 - index] = b'0' + (rest % 10) as u8;
            }
            rest /= 10;
        }
        self.word(name);
        self.word(&digits[DIGITS.saturating_sub(width)..]);
    }

    /// Appends the line of a seat.
    fn seat(&mut self, number: usize, seat: &SeatFigures) {
        let routes = seat.routes.load(Ordering::Relaxed);
        let without_route = seat.without_route.load(Ordering::Relaxed);
        let unknown_from = seat.unknown_from.load(Ordering::Relaxed);
        let unknown_to = seat.unknown_to.load(Ordering::Relaxed);
        let refused = seat.refused.load(Ordering::Relaxed);
        let rows = routes
            .wrapping_add(without_route)
            .wrapping_add(unknown_from)
            .wrapping_add(unknown_to)
            .wrapping_add(refused);
        self.field(b"seat ", 2, number as u64);
        self.field(b" sessions ", DIGITS, seat.sessions.load(Ordering::Relaxed));
        self.field(b" open ", 1, seat.open.load(Ordering::Relaxed));
        self.field(b" rows ", DIGITS, rows);
        self.field(b" route ", DIGITS, routes);
        self.field(b" none ", DIGITS, without_route);
        self.field(b" unknown-from ", DIGITS, unknown_from);
        self.field(b" unknown-to ", DIGITS, unknown_to);
        self.field(b" refused ", DIGITS, refused);
        self.field(
            b" version ",
            VERSION_DIGITS,
            seat.version.load(Ordering::Relaxed),
        );
        self.word(b"\n");
    }
}

/// The file, and how often it was written.
#[derive(Drop)]
struct Page {
    file: File,
    fixed: Fixed,
    /// How often the file was written. The first and the last line have this number.
    count: u64,
    /// The last call on the file that failed.
    fault: Option<io::Error>,
}

impl Page {
    /// Writes the last line, then the lines of the seats, then the first line. So if a reader that
    /// reads from the first byte on finds the same count in the first and the last line, the lines
    /// between them are those of this count.
    fn write(&mut self, version: u64, seats: &[SeatFigures]) -> io::Result<()> {
        self.count = self.count.wrapping_add(1);
        let count = self.count;
        let fixed = &mut self.fixed;
        fixed.text.clear();
        fixed.field(b"figures ", DIGITS, count);
        fixed.field(b" version ", VERSION_DIGITS, version);
        fixed.field(b" seats ", 2, seats.len() as u64);
        fixed.word(b"\n");
        let body = fixed.text.len();
        for index in 0..seats.len() {
            fixed.seat(index.saturating_add(1), &seats[index]);
        }
        let end = fixed.text.len();
        fixed.field(b"end ", DIGITS, count);
        fixed.word(b"\n");
        let text = fixed.text.as_slice();
        self.file
            .write_all_at(text.get(end..).unwrap_or(&[]), end as u64)?;
        self.file
            .write_all_at(text.get(body..end).unwrap_or(&[]), body as u64)?;
        self.file.write_all_at(text.get(..body).unwrap_or(&[]), 0)
    }
}

/// The figures of a run.
#[derive(Drop)]
pub struct Figures {
    seats: Vec<SeatFigures>,
    /// The last published version.
    version: AtomicU64,
    page: Mutex<Page>,
}

/// Opens the file for writing, and removes the bytes that it had. It has to be a plain file, and
/// `size` bytes have to fit it: beyond the process's limit of file size a signal would end the run.
fn open_page(rt: &HostRuntime, path: &str, size: usize) -> io::Result<File> {
    if let Some(most) = most_bytes(rt) {
        if most < size as u64 {
            return Err(io::Error::from(io::ErrorKind::FileTooLarge));
        }
    }
    if let Ok(found) = fs::metadata(rt, path) {
        if !found.is_file() {
            return Err(io::Error::from(io::ErrorKind::InvalidInput));
        }
    }
    OpenOptions::new()
        .write(true)
        .create(true)
        .truncate(true)
        .open(rt, path)
}

impl Figures {
    /// Opens the file of this many seats. The inner error says why the file can't be opened.
    pub(crate) fn open(
        rt: &HostRuntime,
        alloc: Global,
        path: &str,
        count: usize,
    ) -> Result<Result<Figures, Fault>, AllocError> {
        let mut seats = Vec::with_capacity(alloc, count)?;
        for _ in 0..count {
            seats.push(SeatFigures::new())?;
        }
        let size = count.saturating_add(2).saturating_mul(LINE_BYTES);
        let text = Vec::with_capacity(alloc, size)?;
        match open_page(rt, path, size) {
            Ok(file) => Ok(Ok(Figures {
                seats,
                version: AtomicU64::new(0),
                page: Mutex::new(Page {
                    file,
                    fixed: Fixed { text },
                    count: 0,
                    fault: None,
                }),
            })),
            Err(error) => Ok(Err(Fault {
                device: FIGURES,
                action: "open",
                error,
            })),
        }
    }

    /// Counts a line that a seat has written. Seats count from 0.
    pub(crate) fn count(&self, seat: usize, line: CountedLine, version: u64) {
        if let Some(seat) = self.seats.get(seat) {
            seat.count(line, version);
        }
    }

    /// Notes that the files of a session of a seat are open.
    pub(crate) fn begin(&self, seat: usize) {
        if let Some(seat) = self.seats.get(seat) {
            seat.open.store(1, Ordering::Relaxed);
        }
    }

    /// Counts the end of a session, and writes the file.
    pub(crate) fn end(&self, handle: &impl Wait, seat: usize) {
        if let Some(seat) = self.seats.get(seat) {
            seat.open.store(0, Ordering::Relaxed);
            seat.sessions.fetch_add(1, Ordering::Relaxed);
        }
        self.write(handle);
    }

    /// Notes the version that was published last. Writes the file if this is a new version.
    pub(crate) fn publish(&self, handle: &impl Wait, version: u64) {
        if version > self.version.load(Ordering::Relaxed) {
            self.version.store(version, Ordering::Relaxed);
            self.write(handle);
        }
    }

    /// Writes the file. A failure is noted for `fault`, and the run goes on.
    pub(crate) fn write(&self, handle: &impl Wait) {
        let mut page = self.page.lock(handle);
        let page = &mut *page;
        if let Err(error) = page.write(
            self.version.load(Ordering::Relaxed),
            self.seats.as_slice(),
        ) {
            page.fault = Some(error);
        }
    }

    /// The last failure of a write to the file, if any.
    pub(crate) fn fault(&self, handle: &impl Wait) -> Option<Fault> {
        let page = self.page.lock(handle);
        page.fault.map(|error| Fault {
            device: FIGURES,
            action: "write",
            error,
        })
    }
}
