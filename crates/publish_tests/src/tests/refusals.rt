//! Tests refused batches, and refused numbers of askers (which compute the answers).

use super::fixtures::{apply_empty, assert_case, batch, first_batch, is_text, only_link, opened};
use cspf_model::{Batch, Change, Refusal};
use cspf_publish::{ApplyError, OpenError, Publisher, open};
use std::alloc::Global;
use std::io;
use std::io::Write;
use std::process::Abort;
use std::sync::Wait;
use std::test::Fail;

/// A batch with this number that removes a link that doesn't exist.
fn unfit_batch(alloc: Global, number: u32) -> Result<Batch, Fail> {
    let link = only_link()?;
    let absent = Change::Remove {
        from: link.to,
        local: link.local,
    };
    Ok(batch(alloc, number, &[absent])?)
}

/// Whether a batch is refused for a wrong number or for a missing link, after two batches were
/// published. The version must not change.
fn refuses_batches<W: Write, R: Wait>(
    rt: &R,
    alloc: Global,
    publisher: &mut Publisher<W>,
    first: &Batch,
    unfit: &Batch,
) -> bool {
    let first = publisher.apply(rt, alloc, first) == Ok(1);
    let second = apply_empty(rt, alloc, publisher, 2) == Ok(2);
    let wrong = apply_empty(rt, alloc, publisher, 2);
    let refused = publisher.apply(rt, alloc, unfit);
    let are_refused = wrong == Err(ApplyError::WrongNumber { expected: 3 })
        && refused == Err(ApplyError::Refused(Refusal::Absent { at: 1 }));
    first && second && are_refused && publisher.version() == 2
}

/// After refusals the journal has only the texts of the batches that were published.
fn refuse_batches<R: Wait + Abort>(rt: &R, alloc: Global, first: &Batch, unfit: &Batch) {
    let (mut publisher, _asker) = opened(rt, alloc, Vec::<u8>::new(alloc));
    let refuses = refuses_batches(rt, alloc, &mut publisher, first, unfit);
    let is_text = is_text(&publisher.close(rt), b"end,2,0\n");
    assert_case(rt, "refused batches", 2, refuses && is_text);
}

#[test]
fn refused_batches(rt: HostRuntime) -> Result<(), Fail> {
    let first = first_batch(rt.alloc())?;
    let unfit = unfit_batch(rt.alloc(), 3)?;
    refuse_batches(&rt, rt.alloc(), &first, &unfit);
    Ok(())
}

/// The error of opening a publisher with this many askers (which compute the answers), and the
/// length of the journal that `open` returns.
fn open_error<R: Wait>(rt: &R, alloc: Global, askers: usize) -> Option<(OpenError, usize)> {
    match open(rt, alloc, Vec::<u8>::new(alloc), askers) {
        Ok((publisher, _)) => {
            publisher.close(rt);
            None
        }
        Err((error, journal)) => Some((error, journal.len())),
    }
}

/// Pairs: a number of askers (which compute the answers), and the error of opening a publisher with
/// it, if any. The numbers 1 and 64 are accepted, and 0 and 65 are refused.
const ASKERS: &[(usize, Option<(OpenError, usize)>)] = &[
    (1, None),
    (64, None),
    (0, Some((OpenError::Askers, 0))),
    (65, Some((OpenError::Askers, 0))),
];

#[test]
fn numbers_of_askers(rt: HostRuntime) {
    for (askers, wanted) in ASKERS {
        let found = open_error(&rt, rt.alloc(), *askers);
        assert_case(&rt, "askers", *askers, found == *wanted);
    }
}

/// Publishes a million empty batches. Returns the number of the last batch that was published.
fn publish_all<W: Write, R: Wait>(rt: &R, alloc: Global, publisher: &mut Publisher<W>) -> u32 {
    let mut applied = 0u32;
    for number in 1..1_000_001u32 {
        if apply_empty(rt, alloc, publisher, number) == Ok(number) {
            applied = number;
        }
    }
    applied
}

/// After 1,000,000 versions no batch is accepted.
#[test]
fn last_version(rt: HostRuntime) {
    let (mut publisher, _asker) = opened(&rt, rt.alloc(), io::sink());
    let applied = publish_all(&rt, rt.alloc(), &mut publisher);
    let more = apply_empty(&rt, rt.alloc(), &mut publisher, 1_000_001);
    let version = publisher.version();
    publisher.close(&rt);
    let holds = applied == 1_000_000 && more == Err(ApplyError::Exhausted);
    assert_case(
        &rt,
        "a version",
        version as usize,
        holds && version == applied,
    );
}
