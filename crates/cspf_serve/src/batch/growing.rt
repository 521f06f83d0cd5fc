ghost use Rattle.std.specs.Prelude.{◌≡◌, vec_len};

use cspf_model::Request;
use cspf_publish::{Asker, growth_for};
use std::alloc::Global;

/// Lets the askers, which answer the requests in equal parts, grow trees of lower bounds where these
/// requests ask for the same tail-end and affinities often enough. If memory is refused, the askers
/// grow trees as in other runs.
pub(super) fn grow_for(alloc: Global, requests: &[Request], askers: &mut Vec<Asker>)
    ensures items { askers.new.items ≡ askers.old.items }
    ensures count { vec_len askers.new ≡ vec_len askers.old }
{
    let growth = growth_for(alloc, requests, askers.len());
    for index in 0..askers.len() {
        askers[index].set_growth(growth);
    }
}
