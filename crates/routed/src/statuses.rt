//! The exit statuses of the program, except 0.

/// The command line was refused.
pub const REFUSED: u8 = 1;

/// Rows, a batch or a file were refused, or an audit found a fault.
pub const UNFIT: u8 = 2;

/// Memory was refused, or a device failed.
pub const STOPPED: u8 = 3;
