//! The *seat* of an asker (which answers requests): the state that it keeps between two requests.
//! Also how the asker enters a replica of the table and searches there.

ghost use Rattle.std.specs.Prelude.{◌≡◌, IfOk, IfSome, IfNone};
ghost use Rattle.left_right.specs.Sides.{view};
ghost use Rattle.cspf_journal.specs.KnownBatches.{KnownBatches, AreFirstOf};
ghost use Rattle.cspf_model.specs.Changes.{database_after};
ghost use Rattle.cspf_publish.specs.Answers.{IsBestAfter};
ghost use Rattle.cspf_publish.specs.AskerSeats.{IsAskerSeat};
ghost use Rattle.cspf_publish.specs.AskerStates.{asker_with};
ghost use Rattle.cspf_publish.specs.ReplicaRule.{HasItsDatabase, CountsShapeChanges};
ghost use Rattle.cspf_publish.specs.declared.seat_view.SeatView.TheVariants.{Asker as IsAsker};

use crate::known_trees::KnownTrees;
use crate::replica::Replica;
use crate::replica_rule::{Entry, ReplicaRule};
use crate::seat_view::SeatView;
use cspf_db::Table;
use cspf_journal::Known;
use cspf_model::{Outcome, Request};
use cspf_trees::Growth;
use left_right::reader::Reader;
use std::alloc::{AllocError, Global};

/// A reader of the published replica (a copy of the table of links).
pub(crate) type ReplicaReader = Reader<Replica, SeatView, ReplicaRule>;

/// The state that an asker (which answers requests) keeps between two requests.
#[derive(Drop)]
pub(crate) struct AskerSeat {
    /// The reader of the published replica (a copy of the table).
    pub(crate) reader: ReplicaReader,
    /// Trees of lower bounds for the search in the database of the replica (a copy of the table)
    /// that the asker entered last. The field is `None` before the first entry.
    pub(crate) trees: Option<KnownTrees>,
    /// The most trees of lower bounds that the asker keeps.
    pub(crate) most_trees: usize,
    /// When the asker grows trees of lower bounds.
    pub(crate) growth: Growth,
}

// Returns the trees of lower bounds for the database of a replica (a copy of the table). They are
// made from `trees`, which are for an earlier database. If `trees` is `None`, the result has no
// trees yet, and capacity for at most `most` trees, which are grown when `growth` says.
fn trees_at(
    alloc: Global,
    replica: &Replica,
    most: usize,
    growth: Growth,
    trees: Option<KnownTrees>,
) -> KnownTrees
    requires shapes { CountsShapeChanges replica.now }
    requires source { IfSome trees (λ old. replica.now.known.source ≡ old.source) }
    requires most { IfSome trees (λ old. old.most_trees ≡ most) }
    ensures { result ≡ asker_with replica.now.known most }
{
    match trees {
        None => KnownTrees::new(alloc, replica, most, growth),
        Some(old) => {
            let mut trees = old;
            trees.enter(replica);
            trees
        }
    }
}

// Searches the database of a replica (a copy of the table). Returns the trees of lower bounds for
// this database, and the result of the search.
fn search(
    alloc: Global,
    replica: &Replica,
    request: &Request,
    most: usize,
    growth: Growth,
    trees: Option<KnownTrees>,
) -> (KnownTrees, Result<Outcome, AllocError>)
    requires database { HasItsDatabase replica.now }
    requires shapes { CountsShapeChanges replica.now }
    requires source { IfSome trees (λ old. replica.now.known.source ≡ old.source) }
    requires most { IfSome trees (λ old. old.most_trees ≡ most) }
    ensures trees { result.0 ≡ asker_with replica.now.known most }
    ensures best { IfOk result.1 (IsBestAfter replica.now.known.batches request.now) }
{
    let mut trees = trees_at(alloc, replica, most, growth, trees);
    let outcome = trees.best(alloc, replica, request);
    (trees, outcome)
}

// Enters a replica (a copy of the table) and searches its table. Returns the replica's batches, and
// the result of the search. The batches of the asker's last entry are a prefix of the replica's
// batches.
pub(crate) fn enter_and_search(
    seat: AskerSeat,
    ask: (Global, Request),
) -> (AskerSeat, Option<(Known, Result<Outcome, AllocError>)>)
    requires { IsAskerSeat seat }
    ensures none { IfNone result.1 (view result.0.reader.place ≡ view seat.reader.place) }
    ensures seat { IfSome result.1 (λ r. view result.0.reader.place ≡ IsAsker r.0) }
    ensures later { IfSome result.1 (λ r. (known : KnownBatches)
        → view seat.reader.place ≡ IsAsker known → AreFirstOf r.0 known) }
    ensures best { IfSome result.1 (λ r. IfOk r.1 (IsBestAfter r.0.batches ask.1)) }
    ensures most { result.0.most_trees ≡ seat.most_trees }
    ensures after { IsAskerSeat result.0 }
{
    let (alloc, request) = ask;
    let AskerSeat {
        reader,
        trees,
        most_trees,
        growth,
    } = seat;
    match reader.enter_as::<Entry>() {
        Err(reader) => {
            let seat = AskerSeat {
                reader,
                trees,
                most_trees,
                growth,
            };
            (seat, None)
        }
        Ok(reading) => {
            let replica = reading.get();
            let known = replica.known.copy();
            let (trees, outcome) = search(alloc, replica, &request, most_trees, growth, trees);
            let reader = reading.leave();
            let seat = AskerSeat {
                reader,
                trees: Some(trees),
                most_trees,
                growth,
            };
            (seat, Some((known, outcome)))
        }
    }
}

// Copies the table of a replica (a copy of the table).
fn copied(alloc: Global, replica: &Replica) -> Result<Table, AllocError>
    requires { HasItsDatabase replica.now }
    ensures { IfOk result (λ table. table ≡ database_after replica.now.known.batches) }
{
    replica.table.try_clone(alloc)
}

// Enters a replica (a copy of the table) and copies its table. Returns the replica's batches, and
// the copy. The batches of the asker's last entry are a prefix of the replica's batches.
pub(crate) fn enter_and_copy(
    seat: AskerSeat,
    alloc: Global,
) -> (AskerSeat, Option<(Known, Result<Table, AllocError>)>)
    requires { IsAskerSeat seat }
    ensures none { IfNone result.1 (view result.0.reader.place ≡ view seat.reader.place) }
    ensures seat { IfSome result.1 (λ r. view result.0.reader.place ≡ IsAsker r.0) }
    ensures later { IfSome result.1 (λ r. (known : KnownBatches)
        → view seat.reader.place ≡ IsAsker known → AreFirstOf r.0 known) }
    ensures table { IfSome result.1 (λ r. IfOk r.1 (λ table. table ≡ database_after r.0.batches)) }
    ensures most { result.0.most_trees ≡ seat.most_trees }
    ensures after { IsAskerSeat result.0 }
{
    let AskerSeat {
        reader,
        trees,
        most_trees,
        growth,
    } = seat;
    match reader.enter_as::<Entry>() {
        Err(reader) => {
            let seat = AskerSeat {
                reader,
                trees,
                most_trees,
                growth,
            };
            (seat, None)
        }
        Ok(reading) => {
            let replica = reading.get();
            let known = replica.known.copy();
            let trees = trees_at(alloc, replica, most_trees, growth, trees);
            let table = copied(alloc, replica);
            let reader = reading.leave();
            let seat = AskerSeat {
                reader,
                trees: Some(trees),
                most_trees,
                growth,
            };
            (seat, Some((known, table)))
        }
    }
}
