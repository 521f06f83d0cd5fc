//! The codes that the calls from C return.

/// The call has done its work.
pub const ANSWERED: u32 = 0;

/// Memory was refused. The session is closed.
pub const MEMORY: u32 = 1;

/// No session is open.
pub const CLOSED: u32 = 2;
