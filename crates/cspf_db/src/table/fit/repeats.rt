//! The first change of a batch that has the same key as an earlier change.
ghost use Rattle.std.specs.Prelude.{◌≡◌, ℕ, ◌<◌, ◌≤◌, true, length, map, IfSome, IfNone};
ghost use Rattle.std.specs.List.{IsDistinct};
ghost use Rattle.std.specs.Ordering.{eq_by_cmp, is_lt};
ghost use Rattle.cspf_model.specs.Changes.{change_key_cmp, key_changed};
ghost use Rattle.cspf_model.specs.Lemmas.RepeatedKeys.{IsNewAt, IsRepeatedAt};
ghost use Rattle.cspf_model.specs.Refusals.{AreOnceEach};

use crate::table::changes::any_on;
use cspf_addr::Addr;
use cspf_model::{Change, MOST_CHANGES};

/// The index of the first change that has the same key as an earlier change, or `None` if all keys
/// are different.
fn first_repeat(changes: &[Change]) -> Option<usize>
    ensures bound { IfSome result (λ at. at < length changes.now) }
    ensures some { IfSome result (IsRepeatedAt changes.now) }
    ensures before { IfSome result (λ at. (k : ℕ) → k < at → IsNewAt changes.now k) }
    ensures none { IfNone result ((k : ℕ) → k < length changes.now → IsNewAt changes.now k) }
{
    for (at, change) in changes.iter().enumerate() {
        if any_on(&changes[..at], change.key()) {
            return Some(at);
        }
    }
    None
}

/// Writes the keys of the changes into `keys`.
fn list_keys(keys: &mut [(Addr, Option<Addr>)], changes: &[Change])
    requires { length keys.old ≡ length changes.now }
    ensures { keys.new ≡ map key_changed changes.now }
{
    for (at, change) in changes.iter().enumerate() {
        keys[at] = change.key();
    }
}

/// Whether the key `low` is below the key `high`.
fn is_below(low: (Addr, Option<Addr>), high: (Addr, Option<Addr>)) -> bool
    ensures { result ≡ is_lt (change_key_cmp low high) }
{
    low.0.cmp(&high.0).then(low.1.cmp(&high.1)).is_lt()
}

/// Whether the keys are in strictly increasing order.
fn rise(keys: &[(Addr, Option<Addr>)]) -> bool
    ensures { result ≡ true → IsDistinct (eq_by_cmp change_key_cmp) keys.now }
{
    for at in 1..keys.len() {
        if !is_below(keys[at - 1], keys[at]) {
            return false;
        }
    }
    true
}

/// Whether no two changes have the same key. The call uses the slice `keys` to sort the keys.
fn are_apart_in(keys: &mut [(Addr, Option<Addr>)], changes: &[Change]) -> bool
    requires { length keys.old ≡ length changes.now }
    ensures { result ≡ true → AreOnceEach changes.now }
{
    list_keys(keys, changes);
    keys.sort_unstable();
    rise(keys)
}

/// Whether no two changes have the same key. The call sorts the keys, which is faster than
/// comparing all pairs.
fn are_apart(changes: &[Change]) -> bool
    requires { length changes.now ≤ MOST_CHANGES }
    ensures { result ≡ true → AreOnceEach changes.now }
{
    let mut keys = [(Addr::new(0), None); MOST_CHANGES];
    are_apart_in(&mut keys[..changes.len()], changes)
}

/// If there are at most this many changes, `repeat` compares all pairs of changes, and doesn't sort
/// their keys. Also, `has_too_many_routers` calls `fit_by_one` only for at most this many changes,
/// because `fit_by_one` is slow for many changes.
pub(super) const FEW: usize = 16;

/// The index of the first change that has the same key as an earlier change, or `None` if all keys
/// are different. If `apart` is true, the caller knows that all keys are different. For more than
/// `FEW` changes, the call first sorts the keys. If they are all different, it doesn't compare all
/// pairs of changes.
pub(super) fn repeat(changes: &[Change], apart: bool) -> Option<usize>
    requires short { length changes.now ≤ MOST_CHANGES }
    requires known { apart ≡ true → AreOnceEach changes.now }
    ensures bound { IfSome result (λ at. at < length changes.now) }
    ensures some { IfSome result (IsRepeatedAt changes.now) }
    ensures before { IfSome result (λ at. (k : ℕ) → k < at → IsNewAt changes.now k) }
    ensures none { IfNone result (AreOnceEach changes.now) }
{
    if apart || changes.len() > FEW && are_apart(changes) {
        None
    } else {
        first_repeat(changes)
    }
}
