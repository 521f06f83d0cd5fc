ghost use Rattle.std.specs.Prelude.{◌≡◌, ◌<◌, ◌≤◌, false, length, take, OnSome, IfSome, IfNone};
ghost use Rattle.std.specs.Io.KnownBytes.{Appends, Keeps};

use std::io::Write;

/// A writer that can be used until its first failed write. Its only operation is a write.
#[derive(Drop)]
pub(super) struct OpenWriter<'a, W> {
    to: &'a mut W,
    has_failed: bool,
}

impl<'a, W: Write> OpenWriter<'a, W> {
    /// An `OpenWriter` that writes to `to`.
    pub(super) fn new(to: &'a mut W) -> OpenWriter<'a, W>
        ensures writer { result.to.ghost_name ≡ to.entry.ghost_name }
        ensures contents { result.to.now ≡ to.old }
        ensures unfailed { result.has_failed ≡ false }
    {
        OpenWriter {
            to,
            has_failed: false,
        }
    }

    /// Makes one write, and returns how many bytes of the text were written. If the write wrote no
    /// byte or failed in any way, the result is `None`, and no further write can be made.
    pub(super) fn write_some(&mut self, text: &[u8]) -> Option<usize>
        requires { self.old.has_failed ≡ false }
        ensures writer { self.new.to.ghost_name ≡ self.old.to.ghost_name }
        ensures unfailed { OnSome result (self.new.has_failed ≡ false) }
        ensures taken { IfSome result (λ n. Appends (W.contents self.old.to.now)
            (W.contents self.new.to.now) (take n text.now)) }
        ensures some { IfSome result (λ n. 0 < n) }
        ensures most { IfSome result (λ n. n ≤ length text.now) }
        ensures none { IfNone result (Keeps (W.contents self.old.to.now)
            (W.contents self.new.to.now)) }
    {
        let taken = self.to.write(text).unwrap_or(0);
        if taken == 0 {
            self.has_failed = true;
            return None;
        }
        Some(taken)
    }
}
