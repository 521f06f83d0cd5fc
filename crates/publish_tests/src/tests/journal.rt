//! Tests the text of the journal, and faults of its writer.
ghost use Rattle.std.specs.Prelude.{◌≡◌};

use super::fixtures::{
    Narrow, Said, TEXT, apply_empty, assert_case, batch_and_request, empty_writer, first_batch,
    is_answered, is_text, opened, says,
};
use cspf_model::{Batch, Request};
use cspf_publish::{ApplyError, AskError, Asker, Publisher};
use cspf_rows::batch_text;
use std::alloc::{AllocError, Global};
use std::io::{ErrorKind, Write};
use std::process::Abort;
use std::sync::Wait;
use std::test::Fail;

/// Whether a fault of the writer within the text of batch 1 stops the publisher, and the empty
/// database is still published.
fn stops_at<R: Wait + Abort>(
    rt: &R,
    alloc: Global,
    journal: Narrow,
    first: &Batch,
    request: &Request,
) -> bool {
    let most = journal.most;
    let (mut publisher, mut asker) = opened(rt, alloc, journal);
    let fault = publisher.apply(rt, alloc, first);
    let again = apply_empty(rt, alloc, &mut publisher, 7);
    let is_answered = is_answered(alloc, &mut asker, request, 0, Said::UnknownFrom);
    let held = publisher.close(rt).held;
    let stops = fault == Err(ApplyError::Journal { written: most });
    let is_stopped = stops && again == Err(ApplyError::Stopped);
    is_stopped && is_answered && TEXT.get(..most) == Some(held.as_slice())
}

/// How a write to the journal fails: with an error, by an interrupt, or because it accepts no
/// bytes.
const FAULTS: &[Option<ErrorKind>] = &[Some(ErrorKind::Other), Some(ErrorKind::Interrupted), None];

/// The writer fails at each byte of batch 1's text in turn. Before that, each write accepts one
/// byte, or all bytes up to the fault.
fn stop_at_each_byte<R: Wait + Abort>(rt: &R, alloc: Global, first: &Batch, request: &Request) {
    for most in 0..TEXT.len() {
        for fault in FAULTS {
            let slow = empty_writer(alloc, 1, most, *fault);
            let fast = empty_writer(alloc, TEXT.len(), most, *fault);
            let stops = stops_at(rt, alloc, slow, first, request)
                && stops_at(rt, alloc, fast, first, request);
            assert_case(rt, "a fault at", most, stops);
        }
    }
}

#[test]
fn faults_of_the_journal(rt: HostRuntime) -> Result<(), Fail> {
    let (first, request) = batch_and_request(rt.alloc())?;
    stop_at_each_byte(&rt, rt.alloc(), &first, &request);
    Ok(())
}

/// Returns three versions: the published version, the version that the publisher then reports to
/// the asker (which computes the answers), and the version that the asker knows after this report.
fn versions<W: Write>(publisher: &mut Publisher<W>, asker: &mut Asker) -> (u32, u32, u32)
    requires { asker.old.source ≡ publisher.old.source }
{
    let told = publisher.tell();
    (publisher.version(), told.version(), asker.meet(told))
}

/// Whether batch 2 is refused with the error of the journal, and later batches are refused because the
/// publisher is stopped.
fn stops_at_batch_2<R: Wait>(rt: &R, alloc: Global, publisher: &mut Publisher<Narrow>) -> bool
    ensures { publisher.new.source ≡ publisher.old.source }
{
    let failed = apply_empty(rt, alloc, publisher, 2);
    let again = apply_empty(rt, alloc, publisher, 2);
    let next = apply_empty(rt, alloc, publisher, 3);
    let stopped = Err(ApplyError::Stopped);
    failed == Err(ApplyError::Journal { written: 3 }) && again == stopped && next == stopped
}

/// Whether the publisher itself answers the request with the route, at version 1.
fn is_answered_here<W: Write>(alloc: Global, publisher: &Publisher<W>, request: &Request) -> bool {
    let own = publisher
        .answer(alloc, request)
        .map_err(|_| AskError::Memory);
    says(&own, request.id, 1, Said::Route(10, 1))
}

/// Whether a fault in the text of batch 2 stops the publisher for good, and version 1 is still
/// published.
fn stays_at_version_1<R: Wait>(
    rt: &R,
    alloc: Global,
    publisher: &mut Publisher<Narrow>,
    asker: &mut Asker,
    batch_and_request: (&Batch, &Request),
) -> bool
    requires { asker.old.source ≡ publisher.old.source }
{
    let (first, request) = batch_and_request;
    let applied = publisher.apply(rt, alloc, first);
    let is_going = applied == Ok(1) && !publisher.is_stopped();
    let stops = stops_at_batch_2(rt, alloc, publisher);
    let versions = versions(publisher, asker);
    let is_stopped = stops && publisher.is_stopped() && versions == (1, 1, 1);
    let is_answered = is_answered(alloc, asker, request, 1, Said::Route(10, 1));
    is_going && is_stopped && is_answered && is_answered_here(alloc, publisher, request)
}

/// After the fault the journal has the bytes that it accepted before the fault.
fn stop_at_version_1<R: Wait + Abort>(rt: &R, alloc: Global, first: &Batch, request: &Request) {
    let journal = empty_writer(alloc, 1, 175, Some(ErrorKind::Other));
    let (mut publisher, mut asker) = opened(rt, alloc, journal);
    let asked = (first, request);
    let stays = stays_at_version_1(rt, alloc, &mut publisher, &mut asker, asked);
    let is_text = is_text(&publisher.close(rt).held, b"end");
    assert_case(rt, "stopped at version", 1, stays && is_text);
}

#[test]
fn stopped_at_a_version(rt: HostRuntime) -> Result<(), Fail> {
    let (first, request) = batch_and_request(rt.alloc())?;
    stop_at_version_1(&rt, rt.alloc(), &first, &request);
    Ok(())
}

/// Whether a writer that accepts `width` bytes in each write gets the texts of both batches.
fn is_written<R: Wait + Abort>(
    rt: &R,
    alloc: Global,
    width: usize,
    (first, request): (&Batch, &Request),
) -> bool {
    let journal = empty_writer(alloc, width, usize::MAX, None);
    let (mut publisher, mut asker) = opened(rt, alloc, journal);
    let first = publisher.apply(rt, alloc, first);
    let second = apply_empty(rt, alloc, &mut publisher, 2);
    let is_answered = is_answered(alloc, &mut asker, request, 2, Said::Route(10, 1));
    let held = publisher.close(rt).held;
    first == Ok(1) && second == Ok(2) && is_answered && is_text(&held, b"end,2,0\n")
}

/// A writer that accepts one or three bytes in each write gets the texts of both batches.
#[test]
fn journal_in_pieces(rt: HostRuntime) -> Result<(), Fail> {
    let (first, request) = batch_and_request(rt.alloc())?;
    for width in [1, 3].as_slice() {
        let is_written = is_written(&rt, rt.alloc(), *width, (&first, &request));
        assert_case(&rt, "bytes a write", *width, is_written);
    }
    Ok(())
}

/// Whether the batch is written as the text of batch 1.
fn has_text(alloc: Global, batch: &Batch) -> Result<bool, AllocError> {
    Ok(batch_text(alloc, batch)?.as_slice() == TEXT)
}

/// A copy of a batch has the same text in the journal as the batch itself.
#[test]
fn text_of_a_copy(rt: HostRuntime) -> Result<(), Fail> {
    let copy = first_batch(rt.alloc())?.copy(rt.alloc())?;
    assert_case(&rt, "a copy of batch", 1, has_text(rt.alloc(), &copy)?);
    Ok(())
}
