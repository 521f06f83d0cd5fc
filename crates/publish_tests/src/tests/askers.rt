//! Tests askers (the objects that compute the answers to requests). Some askers learn of versions,
//! some don't, and some are moved to another thread.
ghost use Rattle.std.specs.Prelude.{◌≡◌, ◌≤◌, length};

use super::fixtures::{
    ONE, Said, TWO, apply_empty, assert_case, back, batch, batch_and_request, first_batch,
    is_answered, opened, request, says,
};
use cspf_model::{Batch, Change, Request};
use cspf_publish::{AskError, Asker, Publisher, RowOfReader, Told, open};
use std::alloc::Global;
use std::io::Write;
use std::process::Abort;
use std::sync::Wait;
use std::test::Fail;
use std::thread;
use std::thread::Threads;

/// A publisher that has published no batch, and its two askers (which compute the answers).
fn opened_for_two<R: Wait + Abort>(rt: &R, alloc: Global) -> (Publisher<Vec<u8>>, Asker, Asker)
    ensures first { result.1.source ≡ result.0.source }
    ensures second { result.2.source ≡ result.0.source }
{
    match open(rt, alloc, Vec::<u8>::new(alloc), 2) {
        Ok((publisher, mut askers)) => match (askers.pop(), askers.pop()) {
            (Some(second), Some(first)) => (publisher, first, second),
            _ => panic!(rt; "no askers"),
        },
        Err(_) => panic!(rt; "no publisher"),
    }
}

/// Publishes a batch and then an empty batch. The asker (which computes the answers) learns of
/// version 1, then of version 2, then of version 1 again. Returns the versions that the publisher
/// reports to the asker, and the version that the asker knows after each report.
fn told_out_of_order<W: Write, R: Wait>(
    rt: &R,
    alloc: Global,
    publisher: &mut Publisher<W>,
    asker: &mut Asker,
    first: &Batch,
) -> ((u32, u32, u32), (u32, u32, u32))
    requires { asker.old.source ≡ publisher.old.source }
    ensures { publisher.new.source ≡ publisher.old.source }
{
    let _ = publisher.apply(rt, alloc, first);
    let t1 = publisher.tell();
    let t2 = publisher.tell();
    let _ = apply_empty(rt, alloc, publisher, 2);
    let t3 = publisher.tell();
    let told = (t1.version(), t2.version(), t3.version());
    asker.learn(t1);
    (told, (asker.seen(), asker.meet(t3), asker.meet(t2)))
}

/// Whether an asker (which computes the answers) that has learnt of no version answers `none` at
/// version 2, and knows version 2 afterwards.
fn asks_untold(alloc: Global, asker: &mut Asker, request: &Request) -> bool
    ensures { asker.new.source ≡ asker.old.source }
{
    let before = asker.seen();
    let is_answered = is_answered(alloc, asker, request, 2, Said::NoRoute);
    before == 0 && is_answered && asker.seen() == 2
}

/// Whether the asker (which computes the answers) of a closed publisher returns the error
/// `NoEntry`, or still answers `none` at version 2.
fn is_closed(alloc: Global, asker: &mut Asker, request: &Request) -> bool {
    let closed = asker.ask(alloc, request);
    matches!(closed, Err(AskError::NoEntry)) || says(&closed, request.id, 2, Said::NoRoute)
}

/// One asker (which computes the answers) learns of versions in and out of order. Another asker
/// learns of no version, and answers a request.
fn tells_and_asks<R: Wait + Abort>(rt: &R, alloc: Global, first: &Batch, request: &Request) {
    let (mut publisher, mut asker, mut untold) = opened_for_two(rt, alloc);
    let versions = told_out_of_order(rt, alloc, &mut publisher, &mut asker, first);
    let asks = asks_untold(alloc, &mut untold, request);
    let last = untold.meet(publisher.tell());
    publisher.close(rt);
    let are_told = versions == ((1, 1, 2), (1, 2, 2)) && asks && last == 2;
    let holds = are_told && is_closed(alloc, &mut untold, request);
    assert_case(rt, "told and untold at version", 2, holds);
}

#[test]
fn told_and_untold(rt: HostRuntime) -> Result<(), Fail> {
    let first = first_batch(rt.alloc())?;
    let back = request(8, TWO, ONE, 1)?;
    tells_and_asks(&rt, rt.alloc(), &first, &back);
    Ok(())
}

/// Lets the asker (which computes the answers) read the count of published batches, and returns
/// this count. It is at least the count at the time of the call.
fn read_after<W: Write>(publisher: &Publisher<W>, asker: &mut Asker) -> u32
    requires { asker.old.source ≡ publisher.now.source }
    ensures source { asker.new.source ≡ asker.old.source }
    ensures read { length publisher.now.batches ≤ result }
    ensures known { length publisher.now.batches ≤ length asker.new.batches }
{
    let mut steps = asker.steps();
    steps.learn(&publisher.steps());
    let row = RowOfReader {
        reader: 1,
        place: 1,
    };
    asker.catch_up(&mut steps, row)
}

/// Whether an asker (which computes the answers) that has learnt of no version reads `version` as
/// the count of published batches, and knows this version afterwards.
fn reads<W: Write>(publisher: &Publisher<W>, asker: &mut Asker, version: u32) -> bool
    requires { asker.old.source ≡ publisher.now.source }
    ensures { asker.new.source ≡ asker.old.source }
{
    let read = read_after(publisher, asker);
    read == version && asker.seen() == version
}

/// An asker (which computes the answers) that learns of no version reads the count of published
/// batches three times: without batches, after batch 1, and after batch 2.
fn reads_each_count<R: Wait + Abort>(rt: &R, alloc: Global, first: &Batch) {
    let (mut publisher, mut asker) = opened(rt, alloc, Vec::<u8>::new(alloc));
    let none = reads(&publisher, &mut asker, 0);
    let _ = publisher.apply(rt, alloc, first);
    let one = reads(&publisher, &mut asker, 1);
    let _ = apply_empty(rt, alloc, &mut publisher, 2);
    let two = reads(&publisher, &mut asker, 2);
    publisher.close(rt);
    assert_case(rt, "counts up to version", 2, none && one && two);
}

#[test]
fn caught_up_untold(rt: HostRuntime) -> Result<(), Fail> {
    let first = first_batch(rt.alloc())?;
    reads_each_count(&rt, rt.alloc(), &first);
    Ok(())
}

/// An asker (which computes the answers) answers requests before and after the reverse of the link
/// is removed.
fn asks_around_a_drop<R: Wait + Abort>(
    rt: &R,
    alloc: Global,
    (first, second): (&Batch, &Batch),
    (with, without): (&Request, &Request),
) {
    let (mut publisher, mut asker) = opened(rt, alloc, Vec::<u8>::new(alloc));
    let first = publisher.apply(rt, alloc, first);
    let has_route = is_answered(alloc, &mut asker, with, 1, Said::Route(10, 1));
    let second = publisher.apply(rt, alloc, second);
    let has_none = is_answered(alloc, &mut asker, without, 2, Said::NoRoute);
    publisher.close(rt);
    let are_applied = first == Ok(1) && second == Ok(2);
    assert_case(
        rt,
        "asked at version",
        2,
        are_applied && has_route && has_none,
    );
}

#[test]
fn asked_once_the_reverse_is_dropped(rt: HostRuntime) -> Result<(), Fail> {
    let (first, with) = batch_and_request(rt.alloc())?;
    let without = request(8, ONE, TWO, 1000)?;
    let back = back()?;
    let gone = Change::Remove {
        from: back.from,
        local: back.local,
    };
    let second = batch(rt.alloc(), 2, &[gone])?;
    asks_around_a_drop(&rt, rt.alloc(), (&first, &second), (&with, &without));
    Ok(())
}

/// Moves an asker (which computes the answers) to another thread. There it learns of the version in
/// `told` and answers the request. Returns the asker, and whether its answer was the route at
/// version 1, and it knew version 1 afterwards.
fn asked_elsewhere<R: Threads>(
    rt: &R,
    alloc: Global,
    asker: Asker,
    told: Told,
    request: Request,
) -> (Asker, bool)
    requires { told.source ≡ asker.source }
    ensures { result.0.source ≡ asker.source }
{
    thread::join(
        rt,
        move || -> (Asker, bool)
            requires { told.source ≡ asker.source }
            ensures { result.0.source ≡ asker.source }
        {
            let mut asker = asker;
            asker.learn(told);
            let is_answered = is_answered(alloc, &mut asker, &request, 1, Said::Route(10, 1));
            let knows = asker.seen() == 1;
            (asker, is_answered && knows)
        },
        || {},
    )
    .0
}

/// An asker (which computes the answers) is moved to another thread, answers a request there, and
/// is then used on the calling thread again.
fn goes_and_comes_back<R: Threads + Wait + Abort>(
    rt: &R,
    alloc: Global,
    first: &Batch,
    request: Request,
) {
    let (mut publisher, asker) = opened(rt, alloc, Vec::<u8>::new(alloc));
    let applied = publisher.apply(rt, alloc, first);
    let told = publisher.tell();
    let (mut asker, is_answered) = asked_elsewhere(rt, alloc, asker, told, request);
    let met = asker.meet(publisher.tell());
    publisher.close(rt);
    let holds = applied == Ok(1) && is_answered && met == 1;
    assert_case(rt, "asked on another thread at version", 1, holds);
}

#[test]
fn asked_on_another_thread(rt: HostRuntime) -> Result<(), Fail> {
    let (first, request) = batch_and_request(rt.alloc())?;
    goes_and_comes_back(&rt, rt.alloc(), &first, request);
    Ok(())
}
