//! The clients of `serve`: the clients of `--client`, followed by the clients in the file of
//! `--clients-from`.
ghost use Rattle.std.specs.Prelude.{◌≡◌, ◌<◌, ◌≤◌, ◌↔◌, ◌++◌, Contains, IfOk, IsOk, IsUtf8, length, map};
ghost use Rattle.std.specs.Str.Lines.{lines};

use crate::devices::opened;
use crate::options::{CLIENTS_FROM, Call};
use crate::standard_error::say_at;
use crate::statuses::REFUSED;
use crate::stopped::Stopped;
use std::alloc::{AllocError, Global};
use std::fmt;
use std::io::{ErrorKind, Read};

/// The most bytes of the file of `--clients-from`.
const MOST_LIST_BYTES: usize = 1_048_576;

/// Why the file of `--clients-from` is refused.
#[derive(Clone, Copy)]
pub enum Unlisted {
    /// The file has more than `MOST_LIST_BYTES` bytes.
    Long,
    /// The file isn't UTF-8, or it has a zero byte. No file name has a zero byte.
    NoText,
}

impl fmt::Display for Unlisted {
    fn fmt<W: fmt::Write>(&self, f: &mut fmt::Formatter<W>) -> fmt::Result {
        match self {
            Unlisted::Long => write!(f, "more than {MOST_LIST_BYTES} bytes"),
            Unlisted::NoText => f.write_str("no text"),
        }
    }
}

/// Reads the file of `--clients-from`, but at most `MOST_LIST_BYTES + 1` bytes of it. Without the
/// option there are no bytes.
pub(crate) fn list_bytes(call: &Call<'_, '_>) -> Result<Vec<u8>, Stopped> {
    let mut bytes = Vec::new(call.rt.alloc());
    if call.gives(CLIENTS_FROM) {
        let file = opened(call, CLIENTS_FROM)?;
        if let Err(error) = file
            .take(MOST_LIST_BYTES as u64 + 1)
            .read_to_end(&mut bytes)
        {
            return Err(match error.kind() {
                ErrorKind::OutOfMemory => Stopped::Memory,
                _ => Stopped::at(CLIENTS_FROM, "read", error),
            });
        }
    }
    Ok(bytes)
}

/// The text of the file of `--clients-from`. If the file is refused, writes why.
pub(crate) fn list_text<'t>(call: &Call<'_, '_>, bytes: &'t [u8]) -> Result<&'t str, Stopped> {
    match text_in(bytes) {
        Ok(text) => Ok(text),
        Err(why) => {
            say_at(call.rt, CLIENTS_FROM, call.value(CLIENTS_FROM), &why);
            Err(Stopped::Said(REFUSED))
        }
    }
}

/// Returns the bytes as a text. Refuses bytes that can't be a list of clients.
fn text_in(bytes: &[u8]) -> Result<&str, Unlisted>
    ensures text { IfOk result (λ text. text.now ≡ bytes.now) }
    ensures zero { IfOk result (λ _. ¬ (Contains bytes.now 0)) }
    ensures long { (MOST_LIST_BYTES < length bytes.now) ↔ (result ≡ Err Unlisted.Long) }
    ensures taken { length bytes.now ≤ MOST_LIST_BYTES → ¬ (Contains bytes.now 0) → IsUtf8 bytes.now
        → IsOk result }
{
    if bytes.len() > MOST_LIST_BYTES {
        return Err(Unlisted::Long);
    }
    if bytes.contains(&0) {
        return Err(Unlisted::NoText);
    }
    match str::from_utf8(bytes) {
        Ok(text) => Ok(text),
        Err(_) => Err(Unlisted::NoText),
    }
}

/// The lines of a text.
fn lines_of<'t>(alloc: Global, text: &'t str) -> Result<Vec<&'t str>, AllocError>
    ensures { IfOk result (λ found. map (λ line. line.now) found.items ≡ lines text.now) }
{
    text.lines().collect(alloc)
}

/// The arguments `IN=OUT` of all clients: the arguments `given` on the command line, followed by
/// the lines of the text.
pub(crate) fn client_words<'t>(
    alloc: Global,
    given: &[&'t str],
    text: &'t str,
) -> Result<Vec<&'t str>, AllocError>
    ensures { IfOk result (λ words. map (λ word. word.now) words.items
        ≡ map (λ word. word.now) given.now ++ lines text.now) }
{
    let lines = lines_of(alloc, text)?;
    let mut words = Vec::from_slice(alloc, given)?;
    words.extend_from_slice(&lines)?;
    Ok(words)
}
