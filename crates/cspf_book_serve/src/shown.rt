//! What takes the versions of a server's book. The text of a row is written to `keep`, and then the
//! row's batch is published.

ghost use Rattle.std.specs.Prelude.{◌≡◌, IfOk};
ghost use Rattle.cspf_publish.specs.ApplyErrors.{IsNextBatch};
ghost use Rattle.cspf_book_serve.specs.ShownTexts.{as_next};
ghost use Rattle.cspf_book_serve.specs.ShownStates.{written_of};

use cspf_book_run::{Keeps, Unkept, WriteFault};
use cspf_model::Batch;
use cspf_publish::{ApplyError, PreparedBatch};
use cspf_rows::put_all;
use cspf_serve::Counted;
use std::alloc::{AllocError, Global};
use std::io::Write;
use std::sync::Wait;

/// The publisher of a server with a book, the writer `keep`, and whether a write has failed.
pub struct Shown<J, K> {
    pub(crate) counted: Counted<J>,
    pub(crate) keep: K,
    pub(crate) stopped: bool,
}

impl<J: Write, K: Write, R: Wait> Keeps<R> for Shown<J, K> {
    ghost use Rattle.cspf_book_serve.specs.ShownStates.{shown_spec};

    ghost spec = { shown_spec J.contents K.contents };

    fn is_stopped(&self) -> bool {
        self.stopped
    }

    fn keep(&mut self, rt: &R, alloc: Global, text: &[u8], batch: &Batch) -> Result<(), Unkept> {
        let prepared = prepared(&self.counted, alloc, batch)?;
        if let Err(written) = put_all(&mut self.keep, text) {
            self.stopped = true;
            return Err(Unkept::Failed(WriteFault::Keep { written }));
        }
        match self.counted.publish(rt, prepared) {
            Ok(()) => Ok(()),
            Err(error) => {
                self.stopped = true;
                let written = written_of(error);
                Err(Unkept::Failed(WriteFault::Journal { written }))
            }
        }
    }
}

/// The batch with the number of the next published batch, with all the memory that its publishing
/// takes. A batch that makes the effective database of a book's next version is refused only if
/// memory is.
fn prepared<J: Write>(
    counted: &Counted<J>,
    alloc: Global,
    batch: &Batch,
) -> Result<PreparedBatch, AllocError>
    ensures { IfOk result (λ made. (made ≡ as_next counted.now.publisher.batches batch.now)
        × IsNextBatch counted.now.publisher made) }
{
    let publisher = counted.publisher();
    let mut next = batch.copy(alloc)?;
    next.number = publisher.version() + 1;
    match publisher.prepare(alloc, &next) {
        Ok(made) => Ok(made),
        Err(_) => Err(AllocError),
    }
}

/// How many bytes of a batch's text were written to the journal before this error.
fn written_of(error: ApplyError) -> usize
    ensures { result ≡ written_of error }
{
    match error {
        ApplyError::Journal { written } => written,
        _ => 0,
    }
}
