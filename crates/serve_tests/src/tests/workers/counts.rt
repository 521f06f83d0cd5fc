//! Defines a gate (callbacks before and after each request of a worker) that counts requests, and
//! the way in which a gate waits.

use cspf_serve::Gate;
use std::alloc::{AllocError, Global};
use std::sync::atomic::{AtomicU64, Ordering};
use std::thread;

/// The number of iterations for which a gate (callbacks before and after each request) waits before
/// it notes a fault.
const TURNS: u32 = 1_000_000;

/// Counts, for each request, how often a worker draws its index and how often a worker computes its
/// answer.
#[derive(Drop)]
pub(crate) struct Counts {
    reached: Vec<AtomicU64>,
    answered: Vec<AtomicU64>,
    /// The number of indexes that the workers have to draw before they compute the first answer.
    all: u64,
    came: AtomicU64,
    faults: AtomicU64,
}

impl Counts {
    pub(crate) fn new(alloc: Global, count: usize) -> Result<Counts, AllocError> {
        Ok(Counts {
            reached: zeros(alloc, count)?,
            answered: zeros(alloc, count)?,
            all: count as u64,
            came: AtomicU64::new(0),
            faults: AtomicU64::new(0),
        })
    }

    /// Whether the index of each request was drawn once, each request was answered once, and no
    /// wait took too long.
    pub(crate) fn is_whole(&self) -> bool {
        self.faults.load(Ordering::SeqCst) == 0
            && self.came.load(Ordering::SeqCst) == self.all
            && are_ones(&self.reached)
            && are_ones(&self.answered)
    }
}

pub(crate) fn are_ones(counts: &[AtomicU64]) -> bool {
    for count in counts {
        if count.load(Ordering::SeqCst) != 1 {
            return false;
        }
    }
    true
}

pub(crate) fn zeros(alloc: Global, count: usize) -> Result<Vec<AtomicU64>, AllocError> {
    let mut zeros = Vec::with_capacity(alloc, count)?;
    for _ in 0..count {
        zeros.push(AtomicU64::new(0))?;
    }
    Ok(zeros)
}

/// Waits until the number in `word` is at least `least`. Notes a fault if the loop has too many
/// iterations.
pub(crate) fn wait_for(word: &AtomicU64, least: u64, faults: &AtomicU64) {
    for _ in 0..TURNS {
        if word.load(Ordering::SeqCst) >= least {
            return;
        }
        thread::yield_now();
    }
    faults.fetch_add(1, Ordering::SeqCst);
}

/// Each worker waits before it computes an answer, until the indexes of all requests are drawn.
impl Gate for Counts {
    fn reached(&self, _worker: usize, index: usize) {
        if index < self.reached.len() {
            self.reached[index].fetch_add(1, Ordering::SeqCst);
        }
        self.came.fetch_add(1, Ordering::SeqCst);
        wait_for(&self.came, self.all, &self.faults);
    }

    fn answered(&self, _worker: usize, index: usize) {
        if index < self.answered.len() {
            self.answered[index].fetch_add(1, Ordering::SeqCst);
        }
    }
}
