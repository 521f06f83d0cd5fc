//! Grows the stack of a run with threads before the threads begin.

/// The number of bytes by which the stack is grown. A run of `serve` with 64 clients needs fewer
/// bytes.
const STACK_BYTES: usize = 393_216;

/// Whether all bytes have this value. The function isn't inlined, so the bytes are on the stack.
#[inline(never)]
fn have_all(bytes: &[u8], value: u8) -> bool {
    bytes.iter().all(|byte| *byte == value)
}

/// Grows the stack by writing bytes to it. Returns whether the bytes can be read again. This is
/// done before threads start, because threads can use up all address space that the limit of the
/// process allows. If the stack had to grow after that, a signal would end the program.
#[inline(never)]
pub(crate) fn grow_stack(value: u8) -> bool {
    let room = [value; STACK_BYTES];
    have_all(&room, value)
}
