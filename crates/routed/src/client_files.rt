//! The files of the clients of `serve`: their names, the checks that refuse files before any file
//! is opened, and the opening of the files.
ghost use Rattle.std.specs.Prelude.{◌≡◌, ◌<◌, ◌≤◌, length, IfOk, vec_len};

use crate::bounded::Bounded;
use crate::noted::Fault;
use crate::options::{BEGIN, CLIENT, Call, EXPLAIN, FIGURES, JOURNAL, KEEP};
use crate::seats::{Closing, RunSeat, RunSeats};
use crate::standard_error::{say, say_at, say_of, stop};
use crate::statuses::REFUSED;
use crate::stopped::Stopped;
use cspf_serve::{Client, MOST_ASKERS};
use std::fs::{File, OpenOptions};
use std::os::unix::fs::MetadataExt;
use std::sync::Wait;
use std::{fs, io};

/// The name of a client's file of requests in the lines of `--explain`.
const REQUESTS: &str = "a client's requests";

/// The name of a client's file of replies in the lines of `--explain`.
const REPLIES: &str = "a client's replies";

/// The files of a client.
#[derive(Clone, Copy)]
pub struct ClientNames<'a> {
    /// The path of the file of the client's requests.
    pub requests: &'a str,
    /// The path of the file of the client's replies.
    pub replies: &'a str,
}

impl<'a> ClientNames<'a> {
    /// Reads the two paths of an argument `IN=OUT`. Both paths are empty if the argument has no
    /// `=`.
    pub(crate) fn read(word: &'a str) -> ClientNames<'a> {
        match word.split_once('=') {
            Some((requests, replies)) => ClientNames { requests, replies },
            None => ClientNames {
                requests: "",
                replies: "",
            },
        }
    }
}

/// Refuses a call without clients, with more than `MOST_ASKERS` clients, or with files that can't
/// be used. The check opens no file. So all files are unchanged after a refusal.
pub(crate) fn check_clients(call: &Call<'_, '_>, words: &[&str]) -> Result<(), Stopped>
    ensures { IfOk result (λ _. (0 < length words.now) × (length words.now ≤ MOST_ASKERS)) }
{
    check_names(call.rt, words)?;
    if words.is_empty() || words.len() > MOST_ASKERS {
        let _ = eprintln!(call.rt; "routed: there are 1 to {MOST_ASKERS} clients");
        return Err(Stopped::Said(REFUSED));
    }
    check_shared(call, words)?;
    check_empty(call.rt, words)
}

/// Refuses a client whose argument doesn't have two paths.
fn check_names(rt: &HostRuntime, words: &[&str]) -> Result<(), Stopped> {
    for word in words {
        let names = ClientNames::read(word);
        if names.requests.is_empty() || names.replies.is_empty() {
            say(rt, &"a client is IN=OUT");
            return Err(Stopped::Said(REFUSED));
        }
    }
    Ok(())
}

/// Refuses two paths that lead to the same file, if the run writes to that file. Also refuses two
/// equal paths.
fn check_shared(call: &Call<'_, '_>, words: &[&str]) -> Result<(), Stopped> {
    let mut all = Vec::new(call.rt.alloc());
    add(call.rt, &mut all, call.value(JOURNAL), true)?;
    for (option, is_written) in [(FIGURES, true), (KEEP, true), (BEGIN, false)] {
        if call.gives(option) {
            add(call.rt, &mut all, call.value(option), is_written)?;
        }
    }
    for word in words {
        add_client(call.rt, &mut all, ClientNames::read(word))?;
    }
    Ok(())
}

/// Adds the two files of a client to `all`, the files of the run.
fn add_client<'a>(
    rt: &HostRuntime,
    all: &mut Vec<Named<'a>>,
    names: ClientNames<'a>,
) -> Result<(), Stopped> {
    add(rt, all, names.requests, false)?;
    add(rt, all, names.replies, true)
}

/// Adds a file to `all`, the files of the run. The file is refused if `is_shared` is true of this
/// file and an earlier one. Then both have the same path, or both are one file that the run writes.
fn add<'a>(
    rt: &HostRuntime,
    all: &mut Vec<Named<'a>>,
    path: &'a str,
    is_written: bool,
) -> Result<(), Stopped> {
    let named = Named {
        path,
        is_written,
        place: place_of(rt, path),
    };
    if named.is_among(all) {
        say_of(rt, "a file is named twice", &path);
        return Err(Stopped::Said(REFUSED));
    }
    match all.push(named) {
        Ok(()) => Ok(()),
        Err(_) => Err(Stopped::Memory),
    }
}

/// Refuses a file of replies that already has bytes, since the replies would overwrite these bytes.
fn check_empty(rt: &HostRuntime, words: &[&str]) -> Result<(), Stopped> {
    for word in words {
        let path = ClientNames::read(word).replies;
        if has_bytes(rt, path) {
            say_of(rt, "an OUT has to be empty or new", &path);
            return Err(Stopped::Said(REFUSED));
        }
    }
    Ok(())
}

/// The identity of a file: its device and inode. If the file doesn't exist yet, these are the
/// device and inode of its folder, and `new` is the file's name in the folder.
#[derive(Clone, Copy)]
struct Place<'a> {
    device: u64,
    inode: u64,
    new: Option<&'a str>,
}

impl<'a> Place<'a> {
    /// The device and inode of an existing file or folder, together with the name `new`. The result
    /// is `None` if the system doesn't give the device and inode.
    fn read(rt: &HostRuntime, path: &str, new: Option<&'a str>) -> Option<Place<'a>> {
        match fs::metadata(rt, path) {
            Ok(found) => Some(Place {
                device: found.dev(),
                inode: found.ino(),
                new,
            }),
            Err(_) => None,
        }
    }

    /// Whether both values are the same existing file, or the same new name in the same folder.
    fn is(self, other: Place<'_>) -> bool {
        self.device == other.device && self.inode == other.inode && self.new == other.new
    }
}

/// The identity of the file with this path, or of the new file with this path. The result is `None`
/// if the system doesn't give it.
fn place_of<'a>(rt: &HostRuntime, path: &'a str) -> Option<Place<'a>> {
    let found = Place::read(rt, path, None);
    if found.is_some() {
        return found;
    }
    let (folder, name) = folder_of(path);
    Place::read(rt, folder, Some(name))
}

/// The folder of a file, and the file's name in that folder.
fn folder_of(path: &str) -> (&str, &str) {
    match path.rsplit_once('/') {
        Some(("", name)) => ("/", name),
        Some((folder, name)) => (folder, name),
        None => (".", path),
    }
}

/// A file that a run reads or writes.
#[derive(Clone, Copy)]
struct Named<'a> {
    path: &'a str,
    is_written: bool,
    place: Option<Place<'a>>,
}

impl<'a> Named<'a> {
    /// Whether both files have the same path, or both paths lead to one file that the run writes.
    fn is_shared(&self, other: &Named<'a>) -> bool {
        if self.path == other.path {
            return true;
        }
        match (self.place, other.place) {
            (Some(place), Some(others)) => {
                (self.is_written || other.is_written) && place.is(others)
            }
            _ => false,
        }
    }

    /// Whether `is_shared` is true of this file and one of the other files.
    fn is_among(&self, others: &[Named<'a>]) -> bool {
        for other in others {
            if self.is_shared(other) {
                return true;
            }
        }
        false
    }
}

/// Whether this path leads to a plain file that has bytes.
fn has_bytes(rt: &HostRuntime, path: &str) -> bool {
    match fs::metadata(rt, path) {
        Ok(found) => found.is_file() && found.len() > 0,
        Err(_) => false,
    }
}

/// The two opened files of a client, as `serve` uses them.
pub type OpenClient<'a, T> = Client<Bounded<File>, Closing<'a, T>>;

/// Returns the opened file of a client, or an error. With `--explain` it first writes the error.
fn opened(
    call: &Call<'_, '_>,
    word: &'static str,
    path: &str,
    made: io::Result<File>,
) -> Result<File, Stopped> {
    match made {
        Ok(file) => Ok(file),
        Err(error) => {
            if call.has(EXPLAIN) {
                let fault = Fault {
                    device: word,
                    action: "open",
                    error,
                };
                say_at(call.rt, word, path, &fault);
            }
            Err(Stopped::Said(stop(call.rt)))
        }
    }
}

/// Opens the files of a seat, the file of requests first.
fn open_client<'a, T: Wait>(
    call: &Call<'_, '_>,
    seat: RunSeat<'a, T>,
) -> Result<OpenClient<'a, T>, Stopped> {
    let names = seat.names;
    let made = File::open(call.rt, names.requests);
    let file = opened(call, REQUESTS, names.requests, made)?;
    let (requests, cause) = Bounded::new(call.rt.alloc(), file)?;
    let made = OpenOptions::new()
        .write(true)
        .create(true)
        .open(call.rt, names.replies);
    match opened(call, REPLIES, names.replies, made) {
        Ok(file) => {
            let replies = Closing::new(file, cause, seat);
            Ok(Client { requests, replies })
        }
        Err(why) => Err(why),
    }
}

/// Opens the files of all clients, one client after the other.
pub(crate) fn open_clients<'a, T: Wait>(
    call: &Call<'_, '_>,
    words: &[&'a str],
    seats: &'a RunSeats<'a, T>,
) -> Result<Vec<OpenClient<'a, T>>, Stopped>
    ensures { IfOk result (λ clients. vec_len clients ≡ length words.now) }
{
    let mut clients = Vec::with_capacity(call.rt.alloc(), words.len())?;
    for word in words {
        let seat = RunSeat {
            seats,
            number: clients.len(),
            names: ClientNames::read(word),
        };
        let Ok(()) = clients.push(open_client(call, seat)?) else {
            return Err(Stopped::Memory);
        };
    }
    Ok(clients)
}
