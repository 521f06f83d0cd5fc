//! A new file. At the process's limit of file size, a write to this file fails, as on a full
//! device.
ghost use Rattle.std.specs.Prelude.{◌≡◌};

use std::io::{ErrorKind, Write};
use std::{fs, io};

/// The file in which the system lists the limits of a process (proc(5)).
const LIMITS: &str = "/proc/self/limits";

/// The text at the start of the line with the limit of file size. The limit follows this text: a
/// number of bytes, or `unlimited`.
const FILE_SIZE: &str = "Max file size";

/// The most bytes that a file of this process may have, or `None` if the system doesn't tell.
pub(crate) fn most_bytes(rt: &HostRuntime) -> Option<u64> {
    match fs::read_to_string(rt, LIMITS) {
        Ok(limits) => limit_in(limits.as_str()),
        Err(_) => None,
    }
}

/// Reads the limit of file size from the text of a process's limits.
fn limit_in(limits: &str) -> Option<u64> {
    for line in limits.lines() {
        if let Some(limit) = line.strip_prefix(FILE_SIZE) {
            return first_number(limit);
        }
    }
    None
}

/// The number at the start of a text, after any spaces.
fn first_number(text: &str) -> Option<u64> {
    text.split_whitespace().next()?.parse().ok()
}

/// A writer to a new file. A write at the limit of file size returns an error. Without this writer,
/// the system would end the process with a signal.
#[derive(Drop)]
pub struct Limited<W> {
    file: W,
    room: u64,
}

impl<W> Limited<W> {
    /// Makes the writer of a file to which nothing was written yet.
    pub(crate) fn new(rt: &HostRuntime, file: W) -> Limited<W>
        ensures { result.file ≡ file }
    {
        Limited {
            file,
            room: most_bytes(rt).unwrap_or(u64::MAX),
        }
    }
}

impl<W: Write> Write for Limited<W> {
    ghost contents = { λ w. W.contents w.file };

    fn write(&mut self, buf: &[u8]) -> io::Result<usize> {
        if self.room == 0 && !buf.is_empty() {
            return Err(io::Error::from(ErrorKind::FileTooLarge));
        }
        let put = self.file.write(buf)?;
        self.room = self.room.saturating_sub(put as u64);
        Ok(put)
    }

    fn flush(&mut self) -> io::Result<()> {
        self.file.flush()
    }
}
