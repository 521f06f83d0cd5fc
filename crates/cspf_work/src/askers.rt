ghost use Rattle.std.specs.Prelude.{◌≡◌, All, vec_len};
ghost use Rattle.cspf_publish.specs.Histories.{BeginsWith};
ghost use Rattle.cspf_work.specs.Served.{AreSameAskers};

use cspf_publish::{Asker, Publisher};
use std::io::Write;

/// Lets each asker (the object that computes a worker's answers) learn of the published batches.
pub(crate) fn tell_each<W: Write>(publisher: &mut Publisher<W>, askers: &mut Vec<Asker>)
    requires { All (λ a. a.source ≡ publisher.old.source) askers.old.items }
    ensures same { publisher.new ≡ publisher.old }
    ensures askers { AreSameAskers askers.old.items askers.new.items }
    ensures count { vec_len askers.new ≡ vec_len askers.old }
    ensures told { All (λ a. BeginsWith a.batches publisher.old.batches) askers.new.items }
{
    for index in 0..askers.len() {
        askers[index].learn(publisher.tell());
    }
}
