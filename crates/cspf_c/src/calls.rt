//! The functions that C calls. Each of these functions takes the session out of its handle. If the
//! session stays open, the function then puts it back into the handle.

ghost use Rattle.std.specs.Prelude.{◌≡◌, ◌≢◌, MatchOption};
ghost use Rattle.std.specs.declared.option.Option.TheVariants.{None, Some};
ghost use Rattle.cspf_c.specs.Calls.{IsOpened, IsCalled, IsHeld, AreGiven, IsEnded, AreCopied, size_of_lines};

use crate::codes::{ANSWERED, CLOSED, MEMORY};
use crate::handle::Handle;
use crate::opened::Opened;
use std::alloc::{AllocError, Global};
use std::mem::replace;

/// Takes the session out of the handle, which then holds no session.
fn take_session(alloc: Global, handle: &mut Handle) -> Option<Box<Opened>>
    ensures closed { handle.new.value ≡ None }
    ensures held { MatchOption result (handle.old.value ≡ None)
        (λ held. handle.old.value ≡ Some held.value) }
{
    replace(handle, Handle::none()).into_session(alloc)
}

/// Puts a session into the handle, and closes the session that the handle held, if any.
fn hold_session(alloc: Global, handle: &mut Handle, session: Box<Opened>)
    ensures { handle.new.value ≡ Some session.value }
{
    drop(replace(handle, Handle::of(session)).into_session(alloc));
}

/// Closes the session that the handle holds. If `made` is a session, and there is memory for its
/// box, puts it into the handle. Returns the code of the call.
fn keep_session(alloc: Global, handle: &mut Handle, made: Result<Opened, AllocError>) -> u32
    ensures { IsHeld result made handle.new.value }
{
    drop(take_session(alloc, handle));
    let Ok(opened) = made else {
        return MEMORY;
    };
    let Ok(session) = Box::new(alloc, opened) else {
        return MEMORY;
    };
    hold_session(alloc, handle, session);
    ANSWERED
}

/// The number of bytes of the session's lines, or 0 if memory was refused.
fn lines_size(made: &Result<Opened, AllocError>) -> usize
    ensures { result ≡ size_of_lines made.now }
{
    match made {
        Ok(opened) => opened.lines.len(),
        Err(_) => 0,
    }
}

/// Opens a session with the empty database and no open changes. The new session is made before the
/// old session of the handle is closed, so for a moment both sessions are in memory. If memory is
/// refused, the old session is closed all the same. Returns `ANSWERED` or `MEMORY`.
#[unsafe(no_mangle)]
pub extern "C" fn routed_open(alloc: Global, handle: &mut Handle) -> u32
    ensures { IsOpened result handle.new.value }
{
    keep_session(alloc, handle, Opened::new(alloc))
}

/// Gives rows to the session, which then holds the lines that answer these rows. Sets `size` to the
/// number of bytes of these lines. `size` is unchanged if the call doesn't return `ANSWERED`.
#[unsafe(no_mangle)]
pub extern "C" fn routed_rows(
    alloc: Global,
    handle: &mut Handle,
    bytes: &[u8],
    size: &mut usize,
) -> u32
    ensures called { IsCalled (AreGiven bytes.now size.new) result handle.old.value handle.new.value }
    ensures kept { result ≢ ANSWERED → size.new ≡ size.old }
{
    let Some(held) = take_session(alloc, handle) else {
        return CLOSED;
    };
    let made = Box::into_inner(held).answer(alloc, bytes);
    let lines = lines_size(&made);
    let code = keep_session(alloc, handle, made);
    if code == ANSWERED {
        *size = lines;
    }
    code
}

/// Replaces the session's lines with the last line of a run over all rows that the session was
/// given. Sets `size` to the number of bytes of this line. `size` is unchanged if the call doesn't
/// return `ANSWERED`.
#[unsafe(no_mangle)]
pub extern "C" fn routed_end(alloc: Global, handle: &mut Handle, size: &mut usize) -> u32
    ensures called { IsCalled (IsEnded size.new) result handle.old.value handle.new.value }
    ensures kept { result ≢ ANSWERED → size.new ≡ size.old }
{
    let Some(held) = take_session(alloc, handle) else {
        return CLOSED;
    };
    let made = Box::into_inner(held).end(alloc);
    let lines = lines_size(&made);
    let code = keep_session(alloc, handle, made);
    if code == ANSWERED {
        *size = lines;
    }
    code
}

/// Copies the lines that the session holds to the start of the buffer, as many bytes as fit.
/// Returns the number of copied bytes, which is 0 if no session is open.
#[unsafe(no_mangle)]
pub extern "C" fn routed_lines(alloc: Global, handle: &mut Handle, buffer: &mut [u8]) -> usize
    ensures same { handle.new.value ≡ handle.old.value }
    ensures copied { AreCopied handle.old.value buffer.old buffer.new result }
{
    let Some(held) = take_session(alloc, handle) else {
        return 0;
    };
    let size = held.lines.len().min(buffer.len());
    buffer[..size].copy_from_slice(&held.lines[..size]);
    hold_session(alloc, handle, held);
    size
}

/// Closes the session that a handle holds, if any, and frees its memory.
#[unsafe(no_mangle)]
pub extern "C" fn routed_close(alloc: Global, handle: &mut Handle)
    ensures { handle.new.value ≡ None }
{
    let session = take_session(alloc, handle);
    drop(session);
}
