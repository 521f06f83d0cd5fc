//! The lines that the program writes on standard error.

use crate::statuses::STOPPED;
use std::fmt;

/// Writes a line on standard error.
pub(crate) fn say<W: fmt::Display>(rt: &HostRuntime, what: &W) {
    let _ = eprintln!(rt; "routed: {what}");
}

/// Writes a line on standard error about the device or file with this name.
pub(crate) fn say_of<W: fmt::Display>(rt: &HostRuntime, name: &str, what: &W) {
    let _ = eprintln!(rt; "routed: {name}: {what}");
}

/// Writes a line on standard error about a file. `word` is the file's option or the use of the
/// file, and `path` is its path.
pub(crate) fn say_at<W: fmt::Display>(rt: &HostRuntime, word: &str, path: &str, what: &W) {
    let _ = eprintln!(rt; "routed: {word} {path}: {what}");
}

/// Writes that the run stops, and returns the status.
pub(crate) fn stop(rt: &HostRuntime) -> u8 {
    let _ = eprintln!(rt; "routed: stopped");
    STOPPED
}
