//! Notes which call on a device failed. So `--explain` can name the device.
ghost use Rattle.std.specs.Prelude.{◌≡◌};

use std::io::{Read, Write};
use std::{fmt, io};

/// A failed call on a file or a stream.
#[derive(Clone, Copy)]
pub struct Fault {
    /// The device's name: the option that gives a file, or the name of a standard stream.
    pub device: &'static str,
    /// The call that failed: `open`, `read`, `write` or `flush`.
    pub action: &'static str,
    pub error: io::Error,
}

impl fmt::Display for Fault {
    fn fmt<W: fmt::Write>(&self, f: &mut fmt::Formatter<W>) -> fmt::Result {
        write!(f, "{}: {}", self.action, self.error)
    }
}

/// A reader or a writer that notes the last failed call. It returns the bytes and the errors of
/// each call unchanged.
#[derive(Drop)]
pub struct Noted<D> {
    name: &'static str,
    device: D,
    fault: Option<Fault>,
}

impl<D> Noted<D> {
    /// A device on which no call has failed yet.
    pub(crate) fn new(name: &'static str, device: D) -> Noted<D>
        ensures { result.device ≡ device }
    {
        Noted {
            name,
            device,
            fault: None,
        }
    }

    /// The device's name.
    pub(crate) fn name(&self) -> &'static str {
        self.name
    }

    /// The last call that failed, if any.
    pub(crate) fn fault(&self) -> Option<Fault> {
        self.fault
    }

    /// Notes the call if it failed, and returns the call's result unchanged.
    fn note<T>(&mut self, action: &'static str, answer: io::Result<T>) -> io::Result<T>
        ensures device { self.new.device ≡ self.old.device }
        ensures answer { result ≡ answer }
    {
        if let Err(error) = &answer {
            self.fault = Some(Fault {
                device: self.name,
                action,
                error: *error,
            });
        }
        answer
    }
}

impl<R: Read> Read for Noted<R> {
    ghost remaining = { λ r. R.remaining r.device };

    fn read(&mut self, buf: &mut [u8]) -> io::Result<usize> {
        let got = self.device.read(buf);
        self.note("read", got)
    }
}

impl<W: Write> Write for Noted<W> {
    ghost contents = { λ w. W.contents w.device };

    fn write(&mut self, buf: &[u8]) -> io::Result<usize> {
        let put = self.device.write(buf);
        self.note("write", put)
    }

    fn flush(&mut self) -> io::Result<()> {
        let flushed = self.device.flush();
        self.note("flush", flushed)
    }

    fn write_all(&mut self, buf: &[u8]) -> io::Result<()> {
        let put = self.device.write_all(buf);
        self.note("write", put)
    }
}
