//! The record that the rule of draws (an invariant) has for each worker: which numbers it has
//! drawn, and how often it may still draw. This record is the worker's seat.
use std::collections::LinkedList;

/// The *seat* of a worker: the part of a counter's state that belongs to this worker in proofs. It
/// records the numbers that the worker has drawn, and how often the worker may still draw. `share`
/// is the number of draws that each new worker gets. The first and the last seat of a counter
/// belong to no worker. No value of this type exists at run time.
pub struct SeatDraws {
    pub drawn: LinkedList<u64>,
    pub left: u64,
    pub share: u64,
}
