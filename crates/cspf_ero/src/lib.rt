//! EXPLICIT_ROUTE objects as bytes, and the lines that answer requests.
//!
//! `specs/Objects.antt` defines which bytes spell which hops, and the object of a route.
//! `specs/Reading.antt` defines the hops that bytes are read as, or why they are refused.
//! `specs/ReplyLine.antt` defines the reply lines, and `specs/ReplyHead.antt` defines how a line
//! begins. Reading an object allocates no memory.
#![tactic(auto)]

mod ero_error;
mod head;
mod laws;
mod limits;
mod reader;
mod reply;
mod writer;

pub use ero_error::EroError;
pub use head::{Head, reply_head};
pub use laws::{objects_are_read, one_head, one_reply_line, routes_are_read_back};
pub use limits::{MOST_LINE_BYTES, MOST_OBJECT_BYTES};
pub use reader::{FIRST_BYTES, read_ero, read_ero_front};
pub use reply::{reply_line, reply_line_as};
pub use writer::write_ero;
