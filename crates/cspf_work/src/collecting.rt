//! Collects the answers of all workers in the order of the requests. A request without an answer,
//! or with two answers, is an error.

ghost use Rattle.std.specs.Prelude.{◌≡◌, ℕ, ◌+◌, ◌<◌, ◌⊎◌, ◌++◌, List, [], ◌∷◌, Some, None, map, All, IfOk, OnOk, IfErr, slice_get, vec_len};
ghost use Rattle.cspf_work.specs.declared.worker.Reply.{Reply as Done};
ghost use Rattle.cspf_work.specs.Served.{HoldEachOnce};
ghost use Rattle.cspf_work.specs.Working.{indexes};
ghost use Rattle.cspf_work.specs.Collected.{AreFilled, IsPlaced, IsTwice, IsCollectError};

use crate::ServeError;
use crate::worker::Reply;
use cspf_publish::Answer;
use std::alloc::{AllocError, Global};

/// Makes an empty slot for the answer to each request.
fn empty_slots(alloc: Global, count: usize) -> Result<Vec<Option<Answer>>, AllocError>
    ensures count { IfOk result (λ slots. vec_len slots ≡ count) }
    ensures none { IfOk result (λ slots. All (λ slot. slot ≡ None) slots.items) }
{
    let mut slots = Vec::with_capacity(alloc, count)?;
    for _ in 0..count {
        slots.push(None)?;
    }
    Ok(slots)
}

/// Stores the reply's answer in the slot of its request.
fn put(reply: Reply, slots: &mut Vec<Option<Answer>>) -> Result<(), ServeError>
    requires { reply.index < vec_len slots.old }
    ensures count { vec_len slots.new ≡ vec_len slots.old }
    ensures ok { OnOk result ((done : List Done) → AreFilled slots.old.items done
        → AreFilled slots.new.items (done ++ reply ∷ [])) }
    ensures error { IfErr result (λ e. (done : List Done) → AreFilled slots.old.items done
        → IsTwice (done ++ reply ∷ []) e) }
{
    let Reply { index, answer } = reply;
    if slots[index].is_some() {
        return Err(ServeError::Twice { index });
    }
    slots[index] = Some(answer);
    Ok(())
}

/// Stores the answers of a worker in the slots of their requests.
fn put_list(list: Vec<Reply>, slots: &mut Vec<Option<Answer>>) -> Result<(), ServeError>
    requires { All (λ r. r.index < vec_len slots.old) list.items }
    ensures count { vec_len slots.new ≡ vec_len slots.old }
    ensures ok { OnOk result ((done : List Done) → AreFilled slots.old.items done
        → AreFilled slots.new.items (done ++ list.items)) }
    ensures error { IfErr result (λ e. (done : List Done) → AreFilled slots.old.items done
        → IsTwice (done ++ list.items) e) }
{
    for reply in list {
        if let Err(twice) = put(reply, slots) {
            return Err(twice);
        }
    }
    Ok(())
}

/// The indexes of the requests that a worker answered.
fn indexes_of(alloc: Global, list: &[Reply]) -> Result<Vec<usize>, AllocError>
    ensures { IfOk result (λ all. all.items ≡ indexes list.now) }
{
    let mut all = Vec::with_capacity(alloc, list.len())?;
    for reply in list {
        all.push(reply.index)?;
    }
    Ok(all)
}

/// Moves a worker's answers into the slots of their requests, and adds the list of the requests'
/// indexes to `drawn`.
fn take_over(
    alloc: Global,
    list: Vec<Reply>,
    slots: &mut Vec<Option<Answer>>,
    drawn: &mut Vec<Vec<usize>>,
) -> Result<(), ServeError>
    requires { All (λ r. r.index < vec_len slots.old) list.items }
    ensures count { vec_len slots.new ≡ vec_len slots.old }
    ensures ok { OnOk result ((done : List Done) → AreFilled slots.old.items done
        → AreFilled slots.new.items (done ++ list.items)) }
    ensures drawn { OnOk result (map (λ v. v.items) drawn.new.items
        ≡ map (λ v. v.items) drawn.old.items ++ indexes list.items ∷ []) }
    ensures error { IfErr result (λ e. (done : List Done) → AreFilled slots.old.items done
        → (e ≡ ServeError.Memory) ⊎ IsTwice (done ++ list.items) e) }
{
    let Ok(all) = indexes_of(alloc, list.as_slice()) else {
        return Err(ServeError::Memory);
    };
    if drawn.push(all).is_err() {
        return Err(ServeError::Memory);
    }
    put_list(list, slots)
}

/// Returns the answers from the slots of the requests, if each slot has an answer.
fn answers_of(alloc: Global, slots: Vec<Option<Answer>>) -> Result<Vec<Answer>, ServeError>
    ensures ok { IfOk result (λ list. map (λ a. Some a) list.items ≡ slots.items) }
    ensures error { IfErr result (λ e. (e ≡ ServeError.Memory)
        ⊎ ((index : ℕ) × (e ≡ ServeError.Missing index) × (slice_get slots.items index ≡ Some None))) }
{
    let Ok(mut list) = Vec::with_capacity(alloc, slots.len()) else {
        return Err(ServeError::Memory);
    };
    for slot in slots {
        let Some(answer) = slot else {
            return Err(ServeError::Missing { index: list.len() });
        };
        if list.push(answer).is_err() {
            return Err(ServeError::Memory);
        }
    }
    Ok(list)
}

/// Returns the answers to `count` requests, in the order of the requests. For each worker, also
/// returns the indexes of the requests that it answered, in the order in which it answered them.
/// Each request must have exactly one answer.
pub(crate) fn collect(
    alloc: Global,
    lists: Vec<Vec<Reply>>,
    count: usize,
) -> Result<(Vec<Answer>, Vec<Vec<usize>>), ServeError>
    requires { All (λ list. All (λ r. r.index < count) list.items) lists.items }
    ensures count { IfOk result (λ all. vec_len all.0 ≡ count) }
    ensures once { IfOk result (λ all. HoldEachOnce count all.1.items) }
    ensures drawn { IfOk result (λ all. map (λ v. v.items) all.1.items
        ≡ map (λ list. indexes list.items) lists.items) }
    ensures placed { IfOk result (λ all.
        All (λ list. All (IsPlaced all.0.items) list.items) lists.items) }
    ensures error { IfErr result (λ e. IsCollectError count lists.items e) }
{
    let Ok(mut slots) = empty_slots(alloc, count) else {
        return Err(ServeError::Memory);
    };
    let Ok(mut drawn) = Vec::with_capacity(alloc, lists.len()) else {
        return Err(ServeError::Memory);
    };
    for list in lists {
        if let Err(error) = take_over(alloc, list, &mut slots, &mut drawn) {
            return Err(error);
        }
    }
    match answers_of(alloc, slots) {
        Ok(list) => Ok((list, drawn)),
        Err(error) => Err(error),
    }
}
