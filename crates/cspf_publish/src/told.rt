ghost use Rattle.std.specs.Prelude.{◌≡◌, length};
ghost use Rattle.cspf_journal.specs.Histories.{IsHistory};

use cspf_journal::Known;
use std::marker::Model;

/// The batches that a publisher had published when this value was made. Askers (which answer
/// requests) learn of these batches from this value.
#[derive(Drop)]
pub struct Told {
    known: Known,
}

impl Model for Told {
    ghost use Rattle.cspf_journal.specs.KnownBatches.{KnownBatches};

    ghost Value = { KnownBatches };

    ghost view = { λ t. t.known };
}

impl Told {
    pub(crate) fn new(known: Known) -> Told
        ensures { result ≡ known }
    {
        Told { known }
    }

    /// The batches that were published when this value was made. The journal has recorded all of
    /// them.
    pub fn known(&self) -> &Known
        ensures { result.now ≡ self.now }
    {
        &self.known
    }

    /// The version that was published when this value was made. It is the number of the value's
    /// batches.
    pub fn version(&self) -> u32
        ensures version { result ≡ length self.now.batches }
        ensures history { IsHistory self.now.batches }
    {
        self.known.version()
    }
}
