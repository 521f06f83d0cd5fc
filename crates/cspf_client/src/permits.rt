//! Permits, with which at most a given number of clients search at once.

ghost use Rattle.std.specs.Prelude.{◌≡◌, ◌≢◌, ◌⊎◌, ◌+◌, ◌≤◌, ◌<◌, ℕ, IfSome, IfNone, IfOk, vec_len};

use std::alloc::{AllocError, Global};
use std::sync::ledger::{Blank, Ledger, Share};
use std::sync::{Condvar, Mutex, MutexGuard, Wait};

/// The right to search. Each permit of a run is one part of the ledger `L`, and the ledger has as
/// many parts as the run has permits. So no more permits can be held at once. A permit can be
/// neither copied nor dropped: the client that took it gives it back.
pub(crate) struct Permit<L: Ledger> {
    part: Share<L>,
    ghost one: { part.parts ≡ 1 },
    ghost empty: { part.amount ≡ 0 },
}

/// The free permits, and the tickets of the clients that wait for a permit. Tickets are numbered
/// from 0, in the order in which they are drawn.
#[derive(Drop)]
struct Queue<L: Ledger> {
    /// How many permits are free.
    free: u64,
    /// The ledger's parts that are in no permit.
    parts: Share<L>,
    /// How many tickets were drawn.
    drawn: u64,
    /// The lowest ticket that waits. It gets the next permit.
    next: u64,
    ghost enough: { free ≤ parts.parts },
    ghost empty: { parts.amount ≡ 0 },
}

impl<L: Ledger> Queue<L> {
    /// A queue with this many free permits, in which no client waits.
    fn new(free: u64, parts: Share<L>) -> Queue<L>
        requires parts { (free ≤ parts.parts) × (parts.amount ≡ 0) }
        ensures free { result.free ≡ free }
        ensures tickets { (result.drawn ≡ 0) × (result.next ≡ 0) }
    {
        Queue {
            free,
            parts,
            drawn: 0,
            next: 0,
        }
    }

    /// Draws a ticket.
    fn draw(&mut self) -> u64
        ensures ticket { result ≡ self.old.drawn }
        ensures same { (self.new.free ≡ self.old.free) × (self.new.next ≡ self.old.next) }
    {
        let ticket = self.drawn;
        self.drawn = ticket.wrapping_add(1);
        ticket
    }

    /// Takes a permit if one is free and the ticket is the lowest that waits.
    fn take(&mut self, ticket: u64) -> Option<Permit<L>>
        ensures taken { IfSome result (λ _. (ticket ≡ self.old.next)
            × (self.new.free + 1 ≡ self.old.free)) }
        ensures none { IfNone result ((ticket ≢ self.old.next) ⊎ (self.old.free ≡ 0)) }
        ensures same { IfNone result (self.new ≡ self.old) }
        ensures drawn { self.new.drawn ≡ self.old.drawn }
    {
        if ticket != self.next || self.free == 0 {
            return None;
        }
        self.next = ticket.wrapping_add(1);
        Some(self.part_with())
    }

    /// Makes a permit of a free part.
    fn part_with(&mut self) -> Permit<L>
        requires { 0 < self.old.free }
        ensures free { self.new.free + 1 ≡ self.old.free }
        ensures same { (self.new.drawn ≡ self.old.drawn) × (self.new.next ≡ self.old.next) }
    {
        let part = self.parts.split_off(1, 0);
        self.free -= 1;
        Permit { part }
    }

    /// Makes a permit free again.
    fn give_back(&mut self, permit: Permit<L>)
        ensures free { self.old.free < u64.MAX → self.new.free ≡ self.old.free + 1 }
        ensures same { (self.new.drawn ≡ self.old.drawn) × (self.new.next ≡ self.old.next) }
    {
        let Permit { part } = permit;
        self.parts.merge(part);
        self.free = self.free.saturating_add(1);
    }

    /// The lowest ticket that waits, if a permit is free for it.
    fn called(&self) -> Option<u64>
        ensures ticket { IfSome result (λ ticket. (ticket ≡ self.now.next)
            × (self.now.next ≢ self.now.drawn) × (0 < self.now.free)) }
        ensures none { IfNone result ((self.now.next ≡ self.now.drawn) ⊎ (self.now.free ≡ 0)) }
    {
        if self.next == self.drawn || self.free == 0 {
            return None;
        }
        Some(self.next)
    }
}

/// The permits of a run. If no permit is free, clients wait, and get permits in the order in which
/// they came.
#[derive(Drop)]
pub struct Permits<'a, R, L: Ledger> {
    rt: &'a R,
    queue: Mutex<Queue<L>>,
    /// A client that waits with a ticket waits for the condition variable whose index is the ticket
    /// modulo the length of this list. So a client is woken only if it gets a permit, as long as no
    /// more clients wait than there are condition variables.
    turns: Vec<Condvar>,
    ghost some: { 0 < vec_len turns },
}

impl<'a, R: Wait, L: Ledger> Permits<'a, R, L> {
    /// Makes `count` permits, for which at most `clients` clients wait at once.
    pub fn new(
        rt: &'a R,
        alloc: Global,
        clients: usize,
        count: u64,
        blank: Blank,
    ) -> Result<Permits<'a, R, L>, AllocError>
        requires clients { 0 < clients }
        requires name { blank.name ≡ L.name }
        requires parts { (count ≡ blank.parts) × (count ≡ L.parts) }
    {
        let mut turns = Vec::new(alloc);
        for _ in 0..clients {
            turns.push(Condvar::new())?;
        }
        let (_book, parts) = blank.open::<L>();
        Ok(Permits {
            rt,
            queue: Mutex::new(Queue::new(count, parts)),
            turns,
        })
    }

    /// The handle with which clients wait.
    pub(crate) fn handle(&self) -> &R {
        self.rt
    }

    /// Waits until a permit is free and every client that came earlier has got one.
    pub(crate) fn take(&self) -> Permit<L> {
        let mut queue = self.queue.lock(self.rt);
        let ticket = queue.draw();
        for _ in self.rt.forever() {
            if let Some(permit) = queue.take(ticket) {
                self.leave(queue);
                return permit;
            }
            queue = self.turn(ticket).wait(self.rt, queue);
        }
        unreachable!()
    }

    /// Makes a permit free again.
    pub(crate) fn give_back(&self, permit: Permit<L>) {
        let mut queue = self.queue.lock(self.rt);
        queue.give_back(permit);
        self.leave(queue);
    }

    /// Unlocks the queue. If a permit is free, wakes the client that gets it.
    fn leave(&self, queue: MutexGuard<'_, Queue<L>>) {
        let called = queue.called();
        drop(queue);
        if let Some(ticket) = called {
            self.turn(ticket).notify_all();
        }
    }

    /// The condition variable for which the client with this ticket waits.
    fn turn(&self, ticket: u64) -> &Condvar {
        &self.turns[(ticket % self.turns.len() as u64) as usize]
    }
}
