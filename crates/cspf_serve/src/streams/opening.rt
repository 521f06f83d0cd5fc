ghost use Rattle.std.specs.Prelude.{◌≡◌, ◌<◌, ◌≤◌, [], All, IfOk, IfErr, sum_by, vec_len, false};
ghost use Rattle.cspf_publish.specs.declared.limits.TheConstants.{MOST_ASKERS};
ghost use Rattle.cspf_serve.specs.RunFaults.{IsOpeningFault};

use crate::RunError;
use cspf_journal::NewJournal;
use cspf_publish::{Asker, Publisher, open_over};
use std::alloc::Global;
use std::io::Write;
use std::sync::Wait;

/// Opens a publisher over a journal, and an asker for each worker. An asker answers requests. The
/// publisher and the askers together keep at most `trees` trees of lower bounds.
#[tactic(auto, using(crate::proofs::AnswerLines::sources_of, crate::proofs::StreamFaults::opening))]
pub(crate) fn open_for<J: Write, T: Wait>(
    rt: &T,
    alloc: Global,
    journal: J,
    workers: usize,
    trees: usize,
) -> Result<(Publisher<J>, Vec<Asker>), (RunError, J)>
    requires { (0 < workers) × (workers ≤ MOST_ASKERS) }
    ensures publisher { IfOk result (λ opened.
        (opened.0.batches ≡ []) × (opened.0.stopped ≡ false) × (opened.0.journal ≡ journal)) }
    ensures source { IfOk result (λ opened.
        All (λ a. a.source ≡ opened.0.source) opened.1.items) }
    ensures count { IfOk result (λ opened. vec_len opened.1 ≡ workers) }
    ensures trees { IfOk result (λ opened. sum_by (λ a. a.most_trees) opened.1.items ≤ trees) }
    // `open` allows this number of askers. So there are only two errors: memory is refused, or the
    // replicas (the two copies of the table) have no place for another reader.
    ensures error { IfErr result (λ e. IsOpeningFault e.0) }
    ensures journal { IfErr result (λ e. e.1 ≡ journal) }
{
    match open_over(rt, alloc, NewJournal::new(journal), workers, trees) {
        Ok(opened) => Ok(opened),
        Err((refused, journal)) => Err((RunError::from(refused), journal)),
    }
}
