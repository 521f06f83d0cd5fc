mod absorbing;
mod addresses;
mod graph;
mod heads;
mod held_rows;
mod hops;
mod masks;
mod memory;
mod networks;
mod numbers;
mod objects;
mod placing;
mod prefixes;
mod replies;
mod restoring;
mod taking;

use std::alloc::AllocError;
use std::process::Abort;

// If the case doesn't hold, prints its name and number, and stops the test.
fn assert_case(rt: &impl Abort, name: &str, number: usize, holds: bool) {
    assert!(rt; holds, "{name} {number}");
}

// Whether the text is the wanted text. If memory for the text was refused, the result is false.
fn is_text(text: Result<String, AllocError>, wanted: &str) -> bool {
    match text {
        Ok(text) => text.as_str() == wanted,
        Err(_) => false,
    }
}
