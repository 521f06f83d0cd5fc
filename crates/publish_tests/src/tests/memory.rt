//! Tests a publisher and its asker (which computes the answers) while memory is refused. Each call
//! returns its whole answer, or the error that memory is refused. When memory is available again,
//! the call returns its whole answer.
ghost use Rattle.std.specs.Prelude.{◌≡◌, IfSome};

use super::fixtures::{
    ONE, Said, TEXT, TWO, assert_case, batch, both_ways, only_link, opened, request, says,
};
use cspf_model::{Batch, Link, Outcome, Request};
use cspf_publish::{Answer, ApplyError, AskError, Asker, OpenError, Publisher, open};
use std::alloc::Global;
use std::io;
use std::io::Write;
use std::process::Abort;
use std::sync::Wait;
use std::test::Fail;

/// A journal that allocates no memory: its bytes are in the value itself.
#[derive(Drop)]
struct InPlace {
    text: [u8; 200],
    held: usize,
}

impl Write for InPlace {
    fn write(&mut self, buf: &[u8]) -> io::Result<usize> {
        let held = self.held.min(self.text.len());
        let taken = buf.len().min(self.text.len() - held);
        self.text[held..held + taken].copy_from_slice(&buf[..taken]);
        self.held = held + taken;
        Ok(taken)
    }

    fn flush(&mut self) -> io::Result<()> {
        Ok(())
    }
}

/// Whether an allocation of one byte succeeds now.
fn has_memory(alloc: Global) -> bool {
    match Vec::from_slice(alloc, &[1u8]) {
        Ok(bytes) => bytes.len() == 1,
        Err(_) => false,
    }
}

/// A publisher over an empty journal, and its only asker (which computes the answers). If opening
/// fails, the journal has to be returned unchanged, and is opened again. The result is `None` if
/// memory is still refused.
fn opened_at_last<R: Wait + Abort>(rt: &R, alloc: Global) -> Option<(Publisher<InPlace>, Asker)>
    ensures { IfSome result (λ opened. opened.1.source ≡ opened.0.source) }
{
    let empty = InPlace {
        text: [0; 200],
        held: 0,
    };
    match open(rt, alloc, empty, 1) {
        Ok((publisher, mut askers)) => match askers.pop() {
            Some(asker) => Some((publisher, asker)),
            None => panic!(rt; "no asker"),
        },
        Err((error, journal)) => {
            let is_refused = error != OpenError::Askers && journal.held == 0;
            assert_case(rt, "an empty journal", journal.held, is_refused);
            if has_memory(alloc) {
                Some(opened(rt, alloc, journal))
            } else {
                None
            }
        }
    }
}

/// The publisher's result for a batch. If memory is refused at first and is then available again,
/// it is the result of a second attempt.
fn apply_at_last<W: Write, R: Wait>(
    rt: &R,
    alloc: Global,
    publisher: &mut Publisher<W>,
    first: &Batch,
) -> Result<u32, ApplyError>
    ensures { publisher.new.source ≡ publisher.old.source }
{
    let applied = publisher.apply(rt, alloc, first);
    if applied == Err(ApplyError::Memory) && has_memory(alloc) {
        return publisher.apply(rt, alloc, first);
    }
    applied
}

/// Whether batch 1 is published, or memory is still refused and batch 1 isn't published.
fn is_right(alloc: Global, applied: Result<u32, ApplyError>, version: u32) -> bool {
    match applied {
        Ok(1) => version == 1,
        Err(ApplyError::Memory) => version == 0 && !has_memory(alloc),
        _ => false,
    }
}

/// Whether the answer is the route over the link, with version 1.
fn is_of_the_link(answer: &Result<Answer, AskError>, link: &Link) -> bool {
    let links = match answer {
        Ok(answer) => match &answer.outcome {
            Outcome::Route(route) => route.links(),
            _ => &[],
        },
        Err(_) => &[],
    };
    links == [*link].as_slice() && says(answer, 7, 1, Said::Route(10, 1))
}

/// The answer that the asker computes. If memory is refused at first and is then available again,
/// it is the answer of a second attempt.
fn ask_at_last(alloc: Global, asker: &mut Asker, request: &Request) -> Result<Answer, AskError>
    ensures { asker.new.source ≡ asker.old.source }
{
    match asker.ask(alloc, request) {
        Err(AskError::Memory) if has_memory(alloc) => asker.ask(alloc, request),
        answer => answer,
    }
}

/// Whether the answer is right for this version, 0 or 1, or memory is still refused.
fn is_answered(
    alloc: Global,
    answer: &Result<Answer, AskError>,
    version: u32,
    link: &Link,
) -> bool {
    if matches!(answer, Err(AskError::Memory)) {
        return !has_memory(alloc);
    }
    if version == 0 {
        says(answer, 7, 0, Said::UnknownFrom)
    } else {
        is_of_the_link(answer, link)
    }
}

/// Whether a publisher publishes a batch, and its asker (which computes the answers) learns of the
/// version and answers at this version.
fn answers_after<W: Write, R: Wait>(
    rt: &R,
    alloc: Global,
    publisher: &mut Publisher<W>,
    asker: &mut Asker,
    asked: (&Batch, &Request, &Link),
) -> bool
    requires { asker.old.source ≡ publisher.old.source }
{
    let (first, request, link) = asked;
    let applied = apply_at_last(rt, alloc, publisher, first);
    let version = publisher.version();
    let told = publisher.tell();
    let versions = (told.version(), asker.meet(told));
    let answer = ask_at_last(alloc, asker, request);
    let is_told = versions == (version, version) && asker.seen() == version;
    is_told && is_right(alloc, applied, version) && is_answered(alloc, &answer, version, link)
}

/// Whether the journal has the text of the batches up to this version, 0 or 1.
fn has_text(journal: &InPlace, version: u32) -> bool {
    let wanted = if version == 0 { b"" } else { TEXT };
    journal.text.get(..journal.held) == Some(wanted)
}

/// Publishes a batch. The asker (which computes the answers) then learns of the batch and answers a
/// request. Checks that the journal has the texts of the published batches.
fn publish_and_answer<R: Wait + Abort>(
    rt: &R,
    alloc: Global,
    opened: (Publisher<InPlace>, Asker),
    asked: (&Batch, &Request, &Link),
)
    requires { opened.1.source ≡ opened.0.source }
{
    let (mut publisher, mut asker) = opened;
    let answers = answers_after(rt, alloc, &mut publisher, &mut asker, asked);
    let version = publisher.version();
    let has_text = has_text(&publisher.close(rt), version);
    assert_case(rt, "at version", version as usize, answers && has_text);
}

#[test]
fn publisher_while_memory_is_refused(rt: HostRuntime) -> Result<(), Fail> {
    let link = only_link()?;
    let changes = both_ways()?;
    let request = request(7, ONE, TWO, 1000)?;
    let Ok(first) = batch(rt.alloc(), 1, &changes) else {
        return Ok(());
    };
    if let Some(opened) = opened_at_last(&rt, rt.alloc()) {
        publish_and_answer(&rt, rt.alloc(), opened, (&first, &request, &link));
    }
    Ok(())
}
