//! Workers answer many requests at once. Meanwhile a publisher may apply batches. Each worker has a
//! thread and an asker (the object that computes its answers).
//!
//! The workers draw the indexes of their requests from one counter, which `cspf_jobs` defines. A
//! draw reads the counter and adds 1 to it in one step.
//!
//! `specs/Served.antt` defines which answers are right, and which worker answered which request.
//! `specs/Applied.antt` defines the state after batches are applied until one is refused.
//! `specs/AskingErrors.antt` says which error a worker reports if its asker returns an error.
#![tactic(auto)]

mod answering;
mod answering_latest;
mod answering_live;
mod answers;
mod askers;
mod collecting;
mod crew;
mod finishing;
mod gate;
mod limits;
mod live;
mod pool;
mod serve_error;
mod strays;
mod worker;
mod worker_loop;

pub use answering::answer_all;
pub use answering_latest::answer_latest;
pub use answering_live::run_live;
pub use answers::Answers;
pub use cspf_jobs::Drawer;
pub use gate::{Gate, NoGate};
pub use limits::MOST_REQUESTS;
pub use live::Live;
pub use serve_error::ServeError;
