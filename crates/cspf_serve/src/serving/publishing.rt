ghost use Rattle.std.specs.Prelude.{◌≡◌, ◌↔◌, IfOk, IsTrue};

use crate::serving::counted::Counted;
use cspf_stream::Answering;
use std::alloc::{AllocError, Global};

/// Answers the rows of a stream while clients ask, and publishes batches for these clients.
pub trait Publishing<T>: Answering<T, Fault = AllocError> {
    ghost use Rattle.cspf_serve.specs.Publishing.{HasOneSource, PublishingSpec};

    /// The writer of the publisher's journal.
    type Journal;

    /// What the state has beside the publisher, such as another writer.
    type Rest;

    /// The publisher, the known steps of its journal, the last line of the stream, what counts as
    /// refused, and what the state has beside the publisher.
    ghost spec: { PublishingSpec Self Self.Journal Self.Rest };

    /// The last line of the stream, if its rows end in this state. The line may be empty.
    fn last_line(&self, alloc: Global) -> Result<Vec<u8>, AllocError>
        ensures { IfOk result (λ line. spec.last self.now line.items) };

    /// Whether the status of the run says that the stream had refusals.
    fn has_refused(&self) -> bool
        ensures { IsTrue result ↔ spec.refused self.now };

    /// Ends the state, and returns its publisher with the steps of the journal, and what the state
    /// has beside them. The steps are those up to the step that counts the publisher's last batch as
    /// published.
    fn end(self) -> (Counted<Self::Journal>, Self::Rest)
        ensures publisher { result.0.publisher ≡ spec.publisher self }
        ensures steps { result.0.steps ≡ spec.steps self }
        ensures rest { result.1 ≡ spec.rest self };

    /// Law: no row changes the identity of the publisher's journal (its source).
    ghost one_source: { HasOneSource spec Self.answers Self.fails };
}
