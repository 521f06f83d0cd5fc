//! Runs each job in its own thread. Also has a counter, each of whose numbers only one thread gets.
//!
//! `run_all` makes a thread for each job, and counts the threads. All threads wait for one
//! decision: that the jobs begin, or that a job was refused a thread. Only the count of threads
//! makes a `Go`, and every piece of work needs a `Go`. If the jobs begin, each thread does its job,
//! and the calling thread does its own work meanwhile. Otherwise no job begins, and all jobs are
//! returned. The terms of the contract of `run_all` are defined in `specs/Jobs.antt`.
//!
//! Several threads draw numbers from one counter. A draw reads the counter and adds 1 to it in one
//! step. Each number is drawn once, and no number is left out.
//!
//! A counter has one atomic number, which is called its *word*. A draw is one step on the word: a
//! `fetch_add` of 1. Each thread has a *drawer*, the object with which it draws, and each drawer
//! has a *seat*. In proofs, this seat records the numbers that the drawer has drawn, and how often
//! it may still draw. `specs/DrawRule.antt` defines an invariant, the rule of draws, and the effect
//! of a draw. `specs/SeatDraws.antt` defines how the seat of a new drawer is made, and how two
//! seats are merged. `specs/DrawnNumbers.antt` defines what a counter, its seats and its drawers
//! are in contracts. `specs/EachOnce.antt` defines what holds of the drawn numbers in the end.
//!
//! `Counter::open` allocates all memory. Then `split` makes drawers, `Drawer::draw` draws a number,
//! and `join` merges the numbers of all drawers. `close` returns the word: exactly the numbers
//! below the word were drawn, each by one drawer.
#![tactic(auto)]

mod counter;
mod crew;
mod draw_rule;
mod drawer;
mod go;
mod limits;
mod seat_draws;
mod seats;
mod word;

pub use counter::Counter;
pub use crew::{Doer, Meanwhile, run_all};
pub use drawer::Drawer;
pub use go::Go;
pub use limits::{MOST_DRAWERS, MOST_REQUESTS};
pub use seats::{FirstSeat, LastSeat};
pub use word::NoThread;
