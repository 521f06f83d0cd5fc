//! The solver as a static library for C. The caller gives rows to the library, and gets the lines
//! of `solve`.
//!
//! A handle is a pointer that C keeps. `routed_open` puts a session into the handle. `routed_rows`
//! gives rows to the session, and `routed_end` asks the session for its last line. `routed_lines`
//! copies the lines of the last call, and `routed_close` frees all memory. `include/routed.h`
//! describes each call.
//!
//! `specs/Calls.antt` defines what the calls return. `specs/History.antt` defines the lines with
//! which a session answers its rows. These lines and the last line of the session are together the
//! lines of `solve`.
//!
//! Only the module `handle` uses raw pointers, and its proofs are written by hand. A session uses
//! no lock and starts no thread.
#![tactic(auto)]

mod calls;
mod codes;
mod handle;
mod opened;
mod session;

pub use calls::{routed_close, routed_end, routed_lines, routed_open, routed_rows};
