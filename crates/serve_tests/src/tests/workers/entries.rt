//! Tests workers that get requests after their publisher was closed.

ghost use Rattle.std.specs.Prelude.{◌<◌, ◌≤◌, length};
ghost use Rattle.cspf_work.specs.declared.limits.TheConstants.{MOST_REQUESTS};

use super::fixtures::{link_batch, opened, requests};
use cspf_model::{Batch, Request};
use cspf_publish::Asker;
use cspf_serve::{Answers, NoGate, ServeError, answer_all};
use std::alloc::Global;
use std::process::Abort;
use std::sync::Wait;
use std::test::Fail;
use std::thread::Threads;

/// The result of three workers that answer requests after their publisher is closed. Only the first
/// worker's asker (which computes its answers) has learnt of the publisher's batch.
fn ask_closed<R: Threads + Wait + Abort + Sync>(
    rt: &R,
    alloc: Global,
    batch: &Batch,
    requests: &[Request],
) -> Result<Answers, (ServeError, Vec<Asker>)>
    requires { length requests.now ≤ MOST_REQUESTS }
{
    let (mut publisher, mut askers) = opened(rt, alloc, Vec::<u8>::new(alloc), 3);
    let applied = publisher.apply(rt, alloc, batch);
    askers[0].learn(publisher.tell());
    publisher.close(rt);
    assert!(rt; applied == Ok(1));
    answer_all(rt, alloc, askers, requests, &NoGate)
}

/// Whether these are three askers (which compute the workers' answers), and only the first asker
/// knows a batch.
fn are_as_told(askers: &[Asker]) -> bool {
    match askers {
        [first, second, third] => first.seen() == 1 && second.seen() == 0 && third.seen() == 0,
        _ => false,
    }
}

/// Whether the workers fail because they can't read a copy of the published database. Their askers
/// (which compute the answers) have to be returned unchanged.
fn have_no_entry(answered: Result<Answers, (ServeError, Vec<Asker>)>) -> bool {
    match answered {
        Ok(_) => false,
        Err((error, askers)) => error == ServeError::NoEntry && are_as_told(&askers),
    }
}

/// After the publisher is closed, the workers can't read a copy of the published database. Their
/// askers (which compute the answers) are returned unchanged.
#[test]
fn no_entry(rt: HostRuntime) -> Result<(), Fail> {
    let batch = link_batch(rt.alloc(), 1)?;
    for count in [1, 3] {
        let all = requests(rt.alloc(), count)?;
        let answered = ask_closed(&rt, rt.alloc(), &batch, all.as_slice());
        assert!(rt; have_no_entry(answered), "{count}");
    }
    Ok(())
}
