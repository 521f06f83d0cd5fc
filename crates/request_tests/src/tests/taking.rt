//! Tests what a book gives to its taker: the batch of each version, before the book has the
//! version. A table that absorbs these batches is always the effective database of the book.

use super::assert_case;
use super::networks::Edit::{self, Drop, Put};
use super::networks::{ONE, THREE, TWO, batch, interface, left, request, triangle};
use cspf_addr::Addr;
use cspf_book::{Book, Taker};
use cspf_db::Table;
use cspf_model::{Batch, MOST_VERSIONS, Outcome};
use std::alloc::Global;

/// A table that follows a book, and refuses each batch after a number of batches.
#[derive(Drop)]
struct Follower {
    table: Table,
    /// How many batches it took.
    taken: u32,
    /// How many batches it takes at most.
    most: u32,
    /// How many changes the last batch had.
    changes: usize,
}

impl Follower {
    /// Absorbs the batch if its number is the next one and it fits.
    fn follow(&mut self, batch: &Batch) -> Result<(), ()> {
        if self.taken >= self.most || batch.number != self.taken.wrapping_add(1) {
            return Err(());
        }
        self.changes = batch.changes.len();
        self.taken = batch.number;
        match self.table.try_absorb(batch) {
            Ok(()) => Ok(()),
            Err(_) => Err(()),
        }
    }
}

impl Taker<()> for Follower {
    type Refusal = ();

    ghost takes = { λ before b after. Unit {0} };

    ghost places = { λ before b answer after. Unit {0} };

    ghost refuses = { λ before b why after. Unit {0} };

    fn take(&mut self, _context: &(), _alloc: Global, batch: &Batch) -> Result<(), ()> {
        self.follow(batch)
    }

    fn take_placing(
        &mut self,
        _context: &(),
        _alloc: Global,
        batch: &Batch,
        _outcome: &Outcome,
    ) -> Result<(), ()> {
        self.follow(batch)
    }
}

/// A step of a test.
#[derive(Clone, Copy)]
enum Step {
    /// Changes the base by these edits.
    Change(&'static [Edit]),
    /// Places a request with this id and this bandwidth. `hops` is the text of its hops.
    Place(u64, u64, &'static [u8]),
    /// Releases the placement with this id.
    Release(u64),
}

use Step::{Change, Place, Release};

/// A step, and how many changes its batch has. `None` if the step makes no version.
type Case = (Step, Option<usize>);

/// The links from 1.1.1.1 to 3.3.3.3 and through 2.2.2.2 each have 1,000 bytes per second.
const STEPS: &[Case] = &[
    // a route of one link, and a move to a route of two other links
    (Place(1, 600, b""), Some(1)),
    (Place(1, 600, b"2.2.2.2/32s"), Some(3)),
    // a move over the same links, once for each link
    (Place(1, 700, b"2.2.2.2/32s"), Some(2)),
    // no route, and no such placement
    (Place(2, 1001, b""), None),
    (Release(2), None),
    (Place(2, 300, b"2.2.2.2/32s"), Some(2)),
    // a link that both placements use is lowered, and one is dropped
    (Change(&[Put(ONE, TWO, 0, [500; 8])]), Some(1)),
    (Change(&[Drop(TWO, THREE)]), Some(1)),
    // the dropped link isn't put again
    (Release(1), Some(1)),
    (Change(&[Drop(ONE, TWO)]), Some(1)),
    (Release(2), Some(0)),
];

/// Makes the step. Returns whether the book has a new version, or `None` if the step can't be made.
fn is_new(alloc: Global, book: &mut Book, follower: &mut Follower, step: Step) -> Option<bool> {
    let before = book.version();
    if before >= MOST_VERSIONS {
        return None;
    }
    match step {
        Change(edits) => {
            let batch = batch(alloc, edits)?;
            let _ = book.try_absorb(follower, &(), alloc, &batch);
        }
        Place(id, bandwidth, hops) => {
            let request = request(id, bandwidth, hops)?;
            if request.setup != 7 {
                return None;
            }
            let _ = book.place(follower, &(), alloc, &request, 0);
        }
        Release(id) => {
            let _ = book.release(follower, &(), alloc, id);
        }
    }
    Some(book.version() != before)
}

/// Whether the follower's table is the effective database of the book, and the follower took as
/// many batches as the book has versions.
fn is_same(book: &Book, follower: &Follower) -> bool {
    book.version() == follower.taken && book.effective().links() == follower.table.links()
}

/// Whether the step has the expected result, and the table of the follower follows the book.
fn is_followed(alloc: Global, book: &mut Book, follower: &mut Follower, case: &Case) -> bool {
    let (step, changes) = case;
    let is_new = is_new(alloc, book, follower, *step);
    let is_right = match changes {
        Some(changes) => is_new == Some(true) && follower.changes == *changes,
        None => is_new == Some(false),
    };
    is_right && is_same(book, follower)
}

/// A follower of an empty book that takes at most `most` batches.
fn empty_follower(alloc: Global, most: u32) -> Option<Follower> {
    Some(Follower {
        table: Table::new(alloc).ok()?,
        taken: 0,
        most,
        changes: 0,
    })
}

/// A book on the triangle of which the follower took the one version.
fn followed(alloc: Global, follower: &mut Follower) -> Option<Book> {
    let batch = triangle(alloc)?;
    let mut book = Book::new(alloc).ok()?;
    if book.version() >= MOST_VERSIONS {
        return None;
    }
    match book.try_absorb(follower, &(), alloc, &batch) {
        Ok(()) => Some(book),
        Err(_) => None,
    }
}

/// Whether a follower follows a book over all steps.
fn follows(alloc: Global) -> bool {
    let mut follower = match empty_follower(alloc, MOST_VERSIONS) {
        Some(follower) => follower,
        None => return false,
    };
    let mut book = match followed(alloc, &mut follower) {
        Some(book) => book,
        None => return false,
    };
    for case in STEPS {
        if !is_followed(alloc, &mut book, &mut follower, case) {
            return false;
        }
    }
    true
}

#[test]
fn batches_make_effective_databases(rt: HostRuntime) {
    assert_case(&rt, "batches followed", 0, follows(rt.alloc()));
}

/// Steps that a follower refuses.
const REFUSED: &[Step] = &[
    Place(1, 300, b"2.2.2.2/32s"),
    Place(2, 300, b""),
    Release(1),
    Change(&[Drop(ONE, THREE)]),
];

/// Whether the book is unchanged by each step. It has one placement, which holds 600 bytes per
/// second on the link from 1.1.1.1 to 3.3.3.3.
fn are_refused(alloc: Global, book: &mut Book, follower: &mut Follower) -> bool {
    for step in REFUSED {
        let is_old = is_new(alloc, book, follower, *step) == Some(false);
        let is_kept = book.placements().len() == 1 && left(book, ONE, THREE) == [400; 8];
        let key = (Addr::new(ONE), interface(ONE, TWO));
        if !is_old || !is_kept || !is_same(book, follower) || book.counted(key.0, key.1, 7) != 0 {
            return false;
        }
    }
    true
}

/// Whether a book stays as it is while its taker refuses batches, and goes on when it takes them
/// again.
fn stays(alloc: Global) -> bool {
    let mut follower = match empty_follower(alloc, 2) {
        Some(follower) => follower,
        None => return false,
    };
    let mut book = match followed(alloc, &mut follower) {
        Some(book) => book,
        None => return false,
    };
    let is_placed = is_followed(
        alloc,
        &mut book,
        &mut follower,
        &(Place(1, 600, b""), Some(1)),
    );
    if !is_placed || !are_refused(alloc, &mut book, &mut follower) {
        return false;
    }
    follower.most = MOST_VERSIONS;
    let again: &[Case] = &[
        (Place(1, 300, b"2.2.2.2/32s"), Some(3)),
        (Release(1), Some(2)),
    ];
    for case in again {
        if !is_followed(alloc, &mut book, &mut follower, case) {
            return false;
        }
    }
    left(&book, ONE, THREE) == [1000; 8]
}

#[test]
fn refused_batches_change_nothing(rt: HostRuntime) {
    assert_case(&rt, "batches refused", 0, stays(rt.alloc()));
}
