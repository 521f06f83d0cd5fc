//! The sink of a solver: a table that answers requests and accepts the batches that fit.

ghost use Rattle.std.specs.Prelude.{◌≡◌};

use cspf_ero::reply_line;
use cspf_model::{Batch, Request};
use cspf_stream::{BatchAnswer, BatchRefusal, Sink, StreamLine};
use cspf_trees::TreeTable;
use std::alloc::{AllocError, Global};

/// The database of the accepted batches, and its version.
#[derive(Drop)]
pub struct TableSink {
    pub(crate) table: TreeTable,
    pub(crate) version: u32,
}

impl Sink<()> for TableSink {
    ghost use Rattle.cspf_solve.specs.TableSinks.{table_spec};

    ghost spec = { table_spec };

    fn version(&self) -> u32 {
        self.version
    }

    fn next_number(&self) -> u32 {
        self.version + 1
    }

    fn is_stopped(&self) -> bool {
        false
    }

    fn accept(&mut self, _context: &(), alloc: Global, batch: &Batch) -> BatchAnswer {
        let version = batch.number;
        let line = StreamLine::Version { version }.bytes(alloc)?;
        match self.table.try_absorb(batch) {
            Ok(()) => {
                self.version += 1;
                Ok(Ok(line))
            }
            Err(why) => Ok(Err(BatchRefusal::Unfit(why))),
        }
    }

    fn reply(&mut self, alloc: Global, request: &Request) -> Result<Vec<u8>, AllocError> {
        let outcome = self.table.best(alloc, request)?;
        reply_line(alloc, request.id, self.version, &outcome)
    }
}
