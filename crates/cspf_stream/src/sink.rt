ghost use Rattle.std.specs.Prelude.{◌≡◌, ◌<◌, List, IfOk, IfErr, OnErr};
ghost use Rattle.cspf_model.specs.declared.batch.Change.{Change as Changed};
ghost use Rattle.cspf_stream.specs.OpenChanges.{AreKeptChanges};
ghost use Rattle.cspf_stream.specs.Sinks.{SinkSpec};

use crate::BatchRefusal;
use cspf_model::{Batch, MOST_VERSIONS, Request};
use std::alloc::{AllocError, Global};

/// The answer of a sink to a batch: the lines of an accepted batch, or the reason for a refusal.
pub type BatchAnswer = Result<Result<Vec<u8>, BatchRefusal>, AllocError>;

/// Accepts or refuses the batches of a stream of rows, and answers the requests of the stream.
/// `context` is a value that the sink needs to accept a batch, such as the handle of a runtime. No
/// answer depends on this value.
pub trait Sink<C> {
    /// The version of the sink, which batches it accepts or refuses, and how it answers requests.
    ghost spec: { SinkSpec Self };

    /// The version of the sink, which each accepted batch raises.
    fn version(&self) -> u32
        ensures { result ≡ spec.version self.now };

    /// The number of the next batch.
    fn next_number(&self) -> u32
        requires room { spec.version self.now < MOST_VERSIONS }
        ensures { result ≡ spec.next self.now };

    /// Whether the sink is stopped, so that it accepts no more batches.
    fn is_stopped(&self) -> bool
        ensures { result ≡ spec.stopped self.now };

    /// Accepts or refuses a batch. The batch has only the first `KEPT_CHANGES` of the open changes:
    /// at most one change more than a batch may have. Returns the lines of an accepted batch, which
    /// are made before the sink changes, or the reason for a refusal.
    fn accept(&mut self, context: &C, alloc: Global, batch: &Batch) -> BatchAnswer
        requires room { spec.version self.old < MOST_VERSIONS }
        requires next { batch.now.number ≡ spec.next self.old }
        ensures accepted { IfOk result (λ found. IfOk found (λ lines. (all : List Changed)
            → AreKeptChanges batch.now.changes all
            → spec.accepts self.old (record batch.now { changes = all }) lines.items self.new)) }
        ensures refused { IfOk result (λ found. IfErr found (λ why. (all : List Changed)
            → AreKeptChanges batch.now.changes all
            → spec.refuses self.old (record batch.now { changes = all }) why self.new)) }
        ensures lost { OnErr result (self.new ≡ self.old) };

    /// The line that answers a request at the current version. The sink may keep results for later
    /// requests, but the value that callers see is unchanged.
    fn reply(&mut self, alloc: Global, request: &Request) -> Result<Vec<u8>, AllocError>
        ensures same { self.new ≡ self.old }
        ensures line { IfOk result (λ line. spec.replies self.old request.now line.items) };
}
