//! Tests a book of placements while memory is refused: a request isn't placed, and the book is
//! unchanged. When memory is available again, the request is placed. The report of the effect of a
//! batch on the placements also fails at first, and succeeds when memory is available. This is also
//! true of accepting a batch and of releasing a placement.

use super::assert_case;
use super::networks::Edit::Put;
use super::networks::{
    ONE, THREE, batch, book, is_absorbed, is_released, left, offered, placed, placement, restored,
};
use cspf_book::{Book, PlaceError, RestoreError};
use cspf_model::Batch;
use std::alloc::Global;

/// Whether an allocation of one byte succeeds now.
fn has_memory(alloc: Global) -> bool {
    match Vec::from_slice(alloc, &[1u8]) {
        Ok(bytes) => bytes.len() == 1,
        Err(_) => false,
    }
}

/// Whether exactly 600 bytes per second are used on the link from 1.1.1.1 to 3.3.3.3, at the
/// priorities 5 to 7.
fn is_taken(book: &Book) -> bool {
    left(book, ONE, THREE) == [1000, 1000, 1000, 1000, 1000, 400, 400, 400]
}

/// Whether two facts hold: `why` is refused memory, and the book is as it was before the request.
/// Then it has version 1, and the link from 1.1.1.1 to 3.3.3.3 has all its bandwidth left.
fn is_unplaced(book: &Book, why: PlaceError) -> bool {
    why == PlaceError::Memory && book.version() == 1 && left(book, ONE, THREE) == [1000; 8]
}

/// Whether a request for 600 bytes per second is placed in the first or second attempt. If memory
/// is refused in the first attempt, nothing may be placed then, and the second attempt has to place
/// the request. The result is also true if memory is still refused before the second attempt.
fn is_placed_at_last(alloc: Global, book: &mut Book) -> bool {
    match placed(alloc, book, 1, 600, b"", 5) {
        Some(Ok(_)) => return is_taken(book),
        Some(Err(why)) if is_unplaced(book, why) => (),
        _ => return false,
    }
    !has_memory(alloc) || (placed(alloc, book, 1, 600, b"", 5) == Some(Ok(1)) && is_taken(book))
}

/// If memory is refused for the book itself, nothing is tested.
#[test]
fn places_while_memory_is_refused(rt: HostRuntime) {
    let alloc = rt.alloc();
    let is = match book(alloc) {
        Some(mut book) => is_placed_at_last(alloc, &mut book),
        None => true,
    };
    assert_case(&rt, "placed without memory", 0, is);
}

/// Two numbers: the pairs of a link and a priority that the batch leaves with too little bandwidth,
/// and the placements that lose their routes.
fn told(alloc: Global, book: &Book, batch: &Batch) -> Option<(usize, usize)> {
    let over = book.over(alloc, batch).ok()?.len();
    let lost = book.lost(alloc, batch).ok()?.len();
    Some((over, lost))
}

/// Whether the book reports the effect of the batch: too little bandwidth at three priorities, and
/// one placement that loses its route. If memory is refused in the first attempt, a second attempt
/// has to report this. The result is also true if the request isn't placed, or memory is still
/// refused before the second attempt.
fn is_told_at_last(alloc: Global, book: &mut Book, batch: &Batch) -> bool {
    if placed(alloc, book, 1, 600, b"", 5) != Some(Ok(1)) {
        return true;
    }
    if let Some(told) = told(alloc, book, batch) {
        return told == (3, 1);
    }
    !has_memory(alloc) || told(alloc, book, batch) == Some((3, 1))
}

/// Whether the batch is absorbed in the first or second attempt. If memory is refused in the first
/// attempt, the book has to be as it was. The result is also true if memory is still refused before
/// the second attempt.
fn is_absorbed_at_last(alloc: Global, book: &mut Book, batch: &Batch) -> bool {
    if is_absorbed(alloc, book, batch) {
        return book.version() == 2 && left(book, ONE, THREE) == [599; 8];
    }
    let is_same = book.version() == 1 && left(book, ONE, THREE) == [1000; 8];
    is_same && (!has_memory(alloc) || is_absorbed(alloc, book, batch))
}

/// Whether the placement is released in the first or second attempt. If memory is refused in the
/// first attempt, the book has to be as it was. The result is also true if the request isn't
/// placed, or memory is still refused before the second attempt.
fn is_released_at_last(alloc: Global, book: &mut Book) -> bool {
    if placed(alloc, book, 1, 600, b"", 5) != Some(Ok(1)) {
        return true;
    }
    if is_released(alloc, book, 1) {
        return book.version() == 3 && left(book, ONE, THREE) == [1000; 8];
    }
    let is_same = book.version() == 2 && is_taken(book) && book.placements().len() == 1;
    is_same && (!has_memory(alloc) || is_released(alloc, book, 1))
}

/// A batch that puts the link from 1.1.1.1 to 3.3.3.3 into group 0, with 599 bytes per second at
/// each priority.
fn less(alloc: Global) -> Option<Batch> {
    batch(alloc, &[Put(ONE, THREE, 1, [599; 8])])
}

/// If memory is refused for the book itself or the batch, nothing is tested.
#[test]
fn tells_while_memory_is_refused(rt: HostRuntime) {
    let alloc = rt.alloc();
    let is = match (book(alloc), less(alloc)) {
        (Some(mut book), Some(batch)) => is_told_at_last(alloc, &mut book, &batch),
        _ => true,
    };
    assert_case(&rt, "told without memory", 0, is);
}

/// If memory is refused for the book itself or the batch, nothing is tested.
#[test]
fn absorbs_while_memory_is_refused(rt: HostRuntime) {
    let alloc = rt.alloc();
    let is = match (book(alloc), less(alloc)) {
        (Some(mut book), Some(batch)) => is_absorbed_at_last(alloc, &mut book, &batch),
        _ => true,
    };
    assert_case(&rt, "absorbed without memory", 0, is);
}

/// If memory is refused for the book itself, nothing is tested.
#[test]
fn releases_while_memory_is_refused(rt: HostRuntime) {
    let alloc = rt.alloc();
    let is = match book(alloc) {
        Some(mut book) => is_released_at_last(alloc, &mut book),
        None => true,
    };
    assert_case(&rt, "released without memory", 0, is);
}

/// Whether a placement is restored in the first or second attempt. If memory is refused in the first
/// attempt, the book has to be as it was. The result is also true if memory is still refused before
/// the second attempt.
fn is_restored_at_last(alloc: Global, book: &mut Book) -> bool {
    let (first, second) = match (
        placement(alloc, 1, 600, 5, &[THREE]),
        placement(alloc, 1, 600, 5, &[THREE]),
    ) {
        (Some(first), Some(second)) => (first, second),
        _ => return true,
    };
    match restored(alloc, book, first) {
        Some(Ok(())) => return is_taken(book),
        Some(Err(RestoreError::Memory)) => (),
        _ => return false,
    }
    let is_same = book.version() == 1 && left(book, ONE, THREE) == [1000; 8];
    let is_none = book.placement(1).is_none() && book.placements().is_empty();
    is_same
        && is_none
        && (!has_memory(alloc) || (restored(alloc, book, second) == Some(Ok(())) && is_taken(book)))
}

/// If memory is refused for the book itself, nothing is tested.
#[test]
fn restores_while_memory_is_refused(rt: HostRuntime) {
    let alloc = rt.alloc();
    let is = match book(alloc) {
        Some(mut book) => is_restored_at_last(alloc, &mut book),
        None => true,
    };
    assert_case(&rt, "restored without memory", 0, is);
}

/// Whether a request for more bandwidth with the id of the placement is offered in the first or
/// second attempt, and the book stays as it is. The result is also true if the request isn't placed,
/// or memory is still refused before the second attempt.
fn is_offered_at_last(alloc: Global, book: &mut Book) -> bool {
    if placed(alloc, book, 1, 600, b"", 5) != Some(Ok(1)) {
        return true;
    }
    let first = offered(alloc, book, 1, 900, b"");
    let is_same = book.version() == 2 && is_taken(book);
    match first {
        Some(Ok(links)) => is_same && links == 1,
        Some(Err(PlaceError::Memory)) => {
            is_same
                && (!has_memory(alloc) || offered(alloc, book, 1, 900, b"") == Some(Ok(1)))
                && is_taken(book)
        }
        _ => false,
    }
}

/// If memory is refused for the book itself, nothing is tested.
#[test]
fn offers_while_memory_is_refused(rt: HostRuntime) {
    let alloc = rt.alloc();
    let is = match book(alloc) {
        Some(mut book) => is_offered_at_last(alloc, &mut book),
        None => true,
    };
    assert_case(&rt, "offered without memory", 0, is);
}
