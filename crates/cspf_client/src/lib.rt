//! Clients of a publisher. Each client has a stream of requests. An asker answers these requests
//! one by one, in the client's thread. A client that sends requests ahead (before it has the lines of
//! earlier ones) waits for a permit before each search, in order with the other such clients
//! (`permits.rt`). So at most a given number of them search at once.
//!
//! Before each reply, a client reads the count of published batches, in a step of the journal. The
//! version of the reply is at least this count. `specs/ClientRows.antt` defines how a row of a
//! client is answered, at which version, and which batches the client then knows.
//! `specs/ClientRuns.antt` defines the answers to a client whose stream has ended or stopped.
//! `specs/ErrorNames.antt` defines the client's error. The crate `cspf_stream` reads rows and
//! writes lines.
#![tactic(auto)]

mod client;
mod entrance;
mod error;
mod laws;
mod permits;
mod reopens;
mod replies;
mod session;

pub use client::{Client, ServedClient, ServingClient};
pub use error::{ClientError, RowFault};
pub use laws::{clients_go_forward, replies_are_fresh};
pub use permits::Permits;
pub use reopens::Reopens;
pub use replies::{EndOfRequests, Replies};
