//! How a client's requests get to the search: those that were sent ahead need a permit.

use crate::Permits;
use std::cell::Cell;
use std::io;
use std::io::Read;
use std::marker::PhantomData;
use std::sync::ledger::Ledger;

/// A stream of requests that notes when it is read. A reader of rows reads the stream only if no
/// bytes are left of what it read before.
#[derive(Drop)]
pub(crate) struct NotedRequests<'a, Q> {
    pub(crate) requests: Q,
    pub(crate) was_read: &'a Cell<bool>,
}

impl<'a, Q: Read> Read for NotedRequests<'a, Q> {
    ghost remaining = { λ r. Q.remaining r.requests };

    fn read(&mut self, buf: &mut [u8]) -> io::Result<usize> {
        self.was_read.set(true);
        self.requests.read(buf)
    }
}

/// What the thread of a client needs before a search. The type `K` says which kinds of questions are
/// answered.
#[derive(Drop)]
pub(crate) struct Entrance<'a, R, L: Ledger, K> {
    /// The permits of the run.
    pub(crate) permits: &'a Permits<'a, R, L>,
    /// Whether the client's stream was read after its last request. Otherwise the client sends
    /// requests ahead: it had written this request before the last line was written.
    pub(crate) was_read: Cell<bool>,
    /// The kinds of questions.
    pub(crate) kinds: PhantomData<K>,
}
