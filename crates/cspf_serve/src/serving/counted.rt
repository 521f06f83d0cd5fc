//! A publisher, with the steps of its journal.

ghost use Rattle.std.specs.Prelude.{◌≡◌, IfErr, OnErr, OnOk};
ghost use Rattle.cspf_publish.specs.ApplyErrors.{IsApplyError, IsNextBatch};
ghost use Rattle.cspf_publish.specs.JournalSteps.{AreJournalSteps};
ghost use Rattle.cspf_serve.specs.Counted.{IsPublished};
ghost use Rattle.cspf_serve.specs.Publishing.{AreAllCounted};
ghost use Rattle.cspf_serve.specs.Updates.{AreNowCounted};

use cspf_publish::{ApplyError, PreparedBatch, Publisher, SeenSteps, Told};
use std::io::Write;
use std::marker::Model;
use std::sync::Wait;

/// The publisher, and the steps of its journal, up to the step that counts the publisher's last
/// batch as published. It isn't `Drop`: end it by `close`.
pub struct Counted<J> {
    pub(super) publisher: Publisher<J>,
    pub(super) steps: SeenSteps,
}

impl<J> Model for Counted<J> {
    ghost use Rattle.cspf_serve.specs.Publishing.{AreAllCounted};
    ghost use Rattle.cspf_serve.specs.Counted.{CountedState};

    ghost Value = { CountedState J };

    ghost view = { λ c. record { publisher = c.publisher; steps = c.steps } };

    ghost invariant = { λ c. AreAllCounted c.publisher c.steps };
}

impl<J: Write> Counted<J> {
    /// The publisher, with the steps that its journal has at this time.
    pub fn new(publisher: Publisher<J>) -> Counted<J>
        ensures { result.publisher ≡ publisher }
    {
        let steps = publisher.steps();
        Counted { publisher, steps }
    }

    /// The publisher.
    pub fn publisher(&self) -> &Publisher<J>
        ensures { result.now ≡ self.now.publisher }
    {
        &self.publisher
    }

    /// The steps of the journal up to the step that counts the publisher's last batch as published.
    pub fn steps(&self) -> SeenSteps
        ensures same { result ≡ self.now.steps }
        ensures journal { AreJournalSteps result.steps }
        ensures counted { AreAllCounted self.now.publisher result }
    {
        self.steps.copy()
    }

    /// Returns a value by which a client learns of all published batches.
    pub fn tell(&mut self) -> Told
        ensures batches { result.batches ≡ self.old.publisher.batches }
        ensures source { result.source ≡ self.old.publisher.source }
        ensures same { self.new ≡ self.old }
    {
        self.publisher.tell()
    }

    /// Publishes a batch, and learns the steps of the journal, which count the batch as published.
    /// The batch was prepared in this state of the publisher. The call may wait for clients whose
    /// requests are being answered at that time. If an error is returned, the batch isn't published,
    /// and the steps are as before.
    pub fn publish<R: Wait>(&mut self, rt: &R, prepared: PreparedBatch) -> Result<(), ApplyError>
        requires next { IsNextBatch self.old.publisher prepared }
        ensures published { OnOk result
            (IsPublished J.contents self.old.publisher self.new.publisher prepared) }
        ensures source { self.new.publisher.source ≡ self.old.publisher.source }
        ensures counted { OnOk result
            (AreNowCounted self.new.publisher.batches self.old.steps.steps self.new.steps.steps) }
        ensures same { OnErr result ((self.new.publisher.batches ≡ self.old.publisher.batches)
            × (self.new.steps ≡ self.old.steps)) }
        ensures why { IfErr result (λ e.
            IsApplyError J.contents self.old.publisher self.new.publisher prepared e) }
    {
        self.publisher.publish(rt, prepared)?;
        self.steps.learn(&self.publisher.steps());
        Ok(())
    }

    /// Closes the publisher, and returns the writer of its journal. The call may wait for clients
    /// whose requests are being answered at that time.
    pub fn close<R: Wait>(self, rt: &R) -> J
        ensures { result ≡ self.publisher.journal }
    {
        let Counted {
            publisher,
            steps: _,
        } = self;
        publisher.close(rt)
    }
}
