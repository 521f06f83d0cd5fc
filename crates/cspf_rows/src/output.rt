//! Writes whole texts to any writer.

mod open_writer;

ghost use Rattle.std.specs.Prelude.{◌≡◌, ◌<◌, false, length, take, OnOk, IfErr};
ghost use Rattle.std.specs.Io.KnownBytes.{Appends};

use crate::output::open_writer::OpenWriter;
use std::io::Write;

/// Writes the whole text. If a write fails in any way or accepts no byte, the error is the number
/// of bytes that were written before. The function allocates no memory, and doesn't flush the
/// writer.
pub fn put_all<W: Write>(to: &mut W, text: &[u8]) -> Result<(), usize>
    ensures all { OnOk result (Appends (W.contents to.old) (W.contents to.new) text.now) }
    ensures front { IfErr result (λ n.
        Appends (W.contents to.old) (W.contents to.new) (take n text.now)) }
    ensures less { IfErr result (λ n. n < length text.now) }
{
    put_through(&mut OpenWriter::new(to), text)
}

/// Writes the whole text. If a write fails, the error is the number of bytes that were written
/// before. `to` can't be used again after a failed write.
fn put_through<W: Write>(to: &mut OpenWriter<W>, text: &[u8]) -> Result<(), usize>
    requires { to.old.has_failed ≡ false }
    ensures writer { to.new.to.ghost_name ≡ to.old.to.ghost_name }
    ensures all { OnOk result
        (Appends (W.contents to.old.to.now) (W.contents to.new.to.now) text.now) }
    ensures front { IfErr result (λ n.
        Appends (W.contents to.old.to.now) (W.contents to.new.to.now) (take n text.now)) }
    ensures less { IfErr result (λ n. n < length text.now) }
{
    let mut sent = 0;
    while sent < text.len() {
        match to.write_some(&text[sent..]) {
            Some(taken) => sent += taken,
            None => return Err(sent),
        }
    }
    Ok(())
}
