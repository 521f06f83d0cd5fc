//! Both replicas (copies) of the table of links.
ghost use Rattle.std.specs.Prelude.{◌≡◌, ℕ, ◌<◌, ◌≤◌, ◌++◌, [], ◌∷◌, true, false, length, drop, All, IfOk, OnOk, IfErr, vec_len, vec_capacity, sum_by};
ghost use Rattle.std.specs.Arc.{arc_value};
ghost use Rattle.left_right.specs.Sides.{view};
ghost use Rattle.cspf_journal.specs.JournalSteps.{batches_of, count_of};
ghost use Rattle.cspf_model.specs.Numbered.{NumberedChanges};
ghost use Rattle.cspf_model.specs.Changes.{no_links, database_after, Fits};
ghost use Rattle.cspf_model.specs.Refusals.{IsRefusal};
ghost use Rattle.cspf_publish.specs.Answers.{IsBestAfter};
ghost use Rattle.cspf_publish.specs.AskerStates.{asker_with, known_of};
ghost use Rattle.cspf_journal.specs.Histories.{BeginsWith, IsHistory, MayFollow};
ghost use Rattle.cspf_journal.specs.KnownBatches.{known_with};
ghost use Rattle.cspf_publish.specs.Operations.{idle_batch};
ghost use Rattle.cspf_publish.specs.ReplicaStates.{published_state};
ghost use Rattle.cspf_publish.specs.ReplicaRule.{CountsShapeChanges};
ghost use Rattle.cspf_publish.specs.ShapeChanges.{HasShapeChanges};
ghost use Rattle.cspf_publish.specs.declared.limits.TheConstants.{MOST_ASKERS};
ghost use Rattle.cspf_publish.specs.declared.replica.PendingBatch.{PendingBatch as Pending};
ghost use Rattle.cspf_publish.specs.declared.seat_view.SeatView.TheVariants.{New as IsNew, Publisher as IsPublisher};

use crate::asker_seat::ReplicaReader;
use crate::limits::trees_of_each;
use crate::replica::{PendingBatch, Replica};
use crate::replica_rule::{FirstNote, Opening, ReplicaRule, Swap};
use crate::seat_view::SeatView;
use crate::{Asker, OpenError, Told};
use core::mem::replace_with;
use cspf_db::Table;
use cspf_journal::{CopyRight, Known, PublishedCount, RightToCount, RightToShow, SeenSteps};
use cspf_model::{Batch, Outcome, Refusal, Request, absorbing, lawful_batches};
use cspf_search::best;
use left_right::writer::Writer;
use std::alloc::{AllocError, Global};
use std::marker::Model;
use std::sync::{Arc, Wait};

type ReplicaWriter = Writer<Replica, PendingBatch, SeatView, ReplicaRule>;

/// A pair of replicas (the table's two copies), with the count of the batches that are published in
/// them. The pair has the journal's only right to count batches as published. Its replicas have the
/// journal's two `CopyRight`s. So a journal has only one pair. A pair isn't `Drop`: end it by
/// `close`.
pub(crate) struct Replicas {
    writer: ReplicaWriter,
    right: RightToCount,
    count: Arc<PublishedCount>,
}

impl Model for Replicas {
    ghost use Rattle.std.specs.Prelude.{◌≡◌, [], drop};
    ghost use Rattle.std.specs.Arc.{arc_value};
    ghost use Rattle.left_right.specs.Sides.{view as seen_by};
    ghost use Rattle.cspf_journal.specs.KnownBatches.{KnownBatches};
    ghost use Rattle.cspf_publish.specs.ReplicaStates.{published_state};
    ghost use Rattle.cspf_publish.specs.ReplicaRule.{CountsShapeChanges};
    ghost use Rattle.cspf_publish.specs.declared.seat_view.SeatView.TheVariants.{Publisher};

    ghost Value = { KnownBatches };

    ghost view = { λ r. r.writer.desk.shown.value.known };

    ghost invariant = { λ r. (r.writer.desk.shown.value
        ≡ published_state r.writer.desk.shown.value.known r.writer.desk.shown.value.shape_changes)
        × CountsShapeChanges r.writer.desk.shown.value
        × (seen_by r.writer.desk.place ≡ Publisher r.writer.desk.shown.value.known)
        × (drop r.writer.behind r.writer.log.items ≡ [])
        × (r.right ≡ r.writer.desk.shown.value.known)
        × (arc_value r.count ≡ r.writer.desk.shown.value.known.source) };
}

// Makes the publisher's first step, which changes no table. After this step the writer's view has
// the published batches.
fn open_writer<R: Wait>(writer: ReplicaWriter, rt: &R) -> ReplicaWriter
    requires empty { writer.desk.shown.value ≡ record {
      right = writer.desk.shown.value.known.source;
      database = no_links;
      known = record { batches = []; source = writer.desk.shown.value.known.source };
      shape_changes = 0;
      is_open = false;
    } }
    requires pending { drop writer.behind writer.log.items
        ≡ idle_batch writer.desk.shown.value.known ∷ idle_batch writer.desk.shown.value.known ∷ [] }
    ensures seat { view result.desk.place ≡ IsPublisher writer.desk.shown.value.known }
    ensures shown { result.desk.shown.value ≡ published_state writer.desk.shown.value.known 0 }
    ensures pending { drop result.behind result.log.items ≡ [] }
{
    let (writer, published) = writer.publish_as::<Opening, R>(rt);
    let _ = published;
    writer
}

// Publishes the pending batch in one step, the swap of the table's two copies (the replicas), and
// returns the new version.
fn swap_replicas<R: Wait>(writer: ReplicaWriter, rt: &R) -> (ReplicaWriter, u32)
    requires shown { writer.desk.shown.value
        ≡ published_state writer.desk.shown.value.known writer.desk.shown.value.shape_changes }
    requires seat { view writer.desk.place ≡ IsPublisher writer.desk.shown.value.known }
    requires pending { (b : NumberedChanges) × (shape_changes : ℕ)
        × MayFollow writer.desk.shown.value.known.batches b
        × HasShapeChanges (writer.desk.shown.value.known.batches ++ b ∷ []) shape_changes
        × (drop writer.behind writer.log.items ≡ record {
          batch = b;
          known = known_with writer.desk.shown.value.known.batches
              writer.desk.shown.value.known.source b;
          shape_changes = shape_changes;
        } ∷ []) }
    ensures seat { view result.0.desk.place ≡ IsPublisher result.0.desk.shown.value.known }
    ensures shown { result.0.desk.shown.value ≡ published_state
        result.0.desk.shown.value.known result.0.desk.shown.value.shape_changes }
    ensures shapes { CountsShapeChanges result.0.desk.shown.value }
    ensures pending { drop result.0.behind result.0.log.items ≡ [] }
    ensures known { (p : Pending) → drop writer.behind writer.log.items ≡ p ∷ []
        → result.0.desk.shown.value.known ≡ p.known }
    ensures version { result.1 ≡ length result.0.desk.shown.value.known.batches }
{
    // Laws: the database after one more batch is the database before it, with the changes of this
    // batch made. If a list of batches is lawful and one more batch fits its database, the longer
    // list is lawful. A list is lawful if each batch fits the database of the batches before it.
    absorbing();
    lawful_batches();
    let (writer, published) = writer.publish_as::<Swap, R>(rt);
    let _ = published;
    let version = writer.published().known.version();
    (writer, version)
}

// An operation that changes no replica's database.
fn idle_operation(alloc: Global, known: &Known) -> PendingBatch
    ensures { result ≡ idle_batch known.now }
{
    PendingBatch {
        batch: Batch {
            number: 0,
            changes: Vec::new(alloc),
        },
        known: known.copy(),
        shape_changes: 0,
    }
}

fn empty_replica(alloc: Global, known: &Known, right: CopyRight) -> Result<Replica, AllocError>
    ensures { IfOk result (λ r.
        r ≡ record {
          right = right;
          database = no_links;
          known = known.now;
          shape_changes = 0;
          is_open = false;
        }) }
{
    Ok(Replica {
        right,
        table: Table::new(alloc)?,
        known: known.copy(),
        shape_changes: 0,
        is_open: false,
    })
}

// Appends two operations that change nothing. After that the log has capacity for two operations.
fn append_idle(writer: &mut ReplicaWriter, alloc: Global, known: &Known) -> Result<(), AllocError>
    ensures desk { writer.new.desk ≡ writer.old.desk }
    ensures pending { IfOk result (λ _. drop writer.new.behind writer.new.log.items
        ≡ drop writer.old.behind writer.old.log.items
        ++ idle_batch known.now ∷ idle_batch known.now ∷ []) }
{
    let Ok(()) = writer.append(idle_operation(alloc, known)) else {
        return Err(AllocError);
    };
    let Ok(()) = writer.append(idle_operation(alloc, known)) else {
        return Err(AllocError);
    };
    Ok(())
}

// Makes the writer of two empty replicas (the table's two copies), after the publisher's first
// step. The replicas have the two `CopyRight`s of their journal.
fn new_writer<R: Wait>(
    rt: &R,
    alloc: Global,
    known: &Known,
    rights: (CopyRight, CopyRight),
    readers: usize,
) -> Result<ReplicaWriter, AllocError>
    requires none { known.now.batches ≡ [] }
    requires rights { (rights.0 ≡ known.now.source) × (rights.1 ≡ known.now.source) }
    requires readers { (0 < readers) × (readers ≤ MOST_ASKERS) }
    ensures seat { IfOk result (λ w. view w.desk.place ≡ IsPublisher known.now) }
    ensures shown { IfOk result (λ w. w.desk.shown.value ≡ published_state known.now 0) }
    ensures pending { IfOk result (λ w. drop w.behind w.log.items ≡ []) }
{
    let (one, other) = rights;
    let first = empty_replica(alloc, known, one)?;
    let second = empty_replica(alloc, known, other)?;
    let mut writer: ReplicaWriter = Writer::new(alloc, first, second, readers)?;
    if let Err(refused) = append_idle(&mut writer, alloc, known) {
        writer.take(rt);
        return Err(refused);
    }
    Ok(open_writer(writer, rt))
}

// Appends an operation to the writer's log of operations for the replicas (the table's two copies).
// The log has had capacity for it since the replicas were made, so the loop runs only once.
fn append<R: Wait>(writer: &mut ReplicaWriter, rt: &R, operation: PendingBatch)
    ensures desk { writer.new.desk ≡ writer.old.desk }
    ensures pending { drop writer.new.behind writer.new.log.items
        ≡ drop writer.old.behind writer.old.log.items ++ operation ∷ [] }
{
    let mut operation = operation;
    for _ in rt.forever() {
        match writer.append(operation) {
            Ok(()) => return,
            Err(refused) => operation = refused,
        }
    }
    unreachable!()
}

// Makes a new reader of the published replica (a copy of the table). The replicas were made with a
// place for each asker's reader.
fn new_reader(writer: &ReplicaWriter) -> Result<ReplicaReader, OpenError>
    ensures view { IfOk result (λ reader. view reader.place ≡ IsNew) }
    ensures table { IfOk result (λ reader. reader.place.table_id ≡ writer.now.desk.place.table_id) }
    ensures places { IfErr result (λ error. error ≡ OpenError.Places) }
{
    match writer.factory().reader() {
        Ok(reader) => Ok(reader),
        Err(_) => Err(OpenError::Places),
    }
}

// Returns a reference to the count of published batches for one more asker. There are far fewer
// references than an `Arc` may have, so the loop runs only once.
fn share<R: Wait>(count: &Arc<PublishedCount>, rt: &R) -> Arc<PublishedCount>
    ensures { arc_value result ≡ arc_value count.now }
{
    for _ in rt.forever() {
        if let Ok(shared) = Arc::try_clone(count) {
            return shared;
        }
    }
    unreachable!()
}

// Raises the count of published batches by 1, for the batch that was published last. Nothing else
// changes this count, so the loop runs only once.
fn count_shown<R: Wait>(
    right: &mut RightToCount,
    rt: &R,
    count: &PublishedCount,
    writer: &ReplicaWriter,
)
    requires count { count.now ≡ right.old.source }
    requires next { (b : NumberedChanges) × (writer.now.desk.shown.value.known
        ≡ known_with right.old.batches right.old.source b) }
    ensures { right.new ≡ writer.now.desk.shown.value.known }
{
    for _ in rt.forever() {
        if right.count(count, &writer.published().known) {
            return;
        }
    }
    unreachable!()
}

impl Replicas {
    /// Makes two empty replicas (the table's two copies). This call allocates the memory of the
    /// writer's log of operations. Later the log never has more than two operations, so no other
    /// call allocates memory for it.
    pub(crate) fn new<R: Wait>(
        rt: &R,
        alloc: Global,
        right: RightToShow,
        readers: usize,
    ) -> Result<Replicas, AllocError>
        requires none { right.batches ≡ [] }
        requires readers { (0 < readers) × (readers ≤ MOST_ASKERS) }
        ensures { IfOk result (λ r. r ≡ right) }
    {
        let known = right.known();
        let (right, count, one, other) = right.split();
        let count = Arc::new(alloc, count)?;
        Ok(Replicas {
            writer: new_writer(rt, alloc, &known, (one, other), readers)?,
            right,
            count,
        })
    }

    /// Makes `count` askers in the list `room`, which has the capacity for them. The askers (which
    /// answer requests) know the published batches. Together they keep at most `trees` trees of
    /// lower bounds, in equal shares. The only error is that the replicas (the table's two copies)
    /// have no place for another reader.
    pub(crate) fn askers<R: Wait>(
        &mut self,
        rt: &R,
        room: Vec<Asker>,
        count: usize,
        trees: usize,
    ) -> Result<Vec<Asker>, OpenError>
        requires { (room.items ≡ []) × (count ≤ vec_capacity room) }
        ensures same { self.new ≡ self.old }
        ensures count { IfOk result (λ all. vec_len all ≡ count) }
        ensures each { IfOk result (λ all. All (λ a. known_of a ≡ self.old) all.items) }
        ensures trees { IfOk result (λ all. sum_by (λ a. a.most_trees) all.items ≤ trees) }
        ensures places { IfErr result (λ error. error ≡ OpenError.Places) }
    {
        let mut all = room;
        let each = trees_of_each(trees, count);
        for _ in 0..count {
            all.push_reserved(self.asker(rt, each)?);
        }
        Ok(all)
    }

    fn asker<R: Wait>(&mut self, rt: &R, trees: usize) -> Result<Asker, OpenError>
        ensures same { self.new ≡ self.old }
        ensures asker { IfOk result (λ asker. asker ≡ asker_with self.old trees) }
        ensures places { IfErr result (λ error. error ≡ OpenError.Places) }
    {
        let mut reader = new_reader(&self.writer)?;
        reader.learn::<FirstNote>(self.writer.tell::<FirstNote>());
        Ok(Asker::new(reader, self.known(), share(&self.count, rt), trees))
    }

    // The published batches.
    fn known(&self) -> Known
        ensures { result ≡ self.now }
    {
        self.writer.published().known.copy()
    }

    /// The published version: the number of published batches.
    pub(crate) fn version(&self) -> u32
        ensures version { result ≡ length self.now.batches }
        ensures history { IsHistory self.now.batches }
    {
        self.writer.published().known.version()
    }

    /// `Ok` if the batch fits the published database, or else the first reason why it doesn't.
    pub(crate) fn check(&self, batch: &Batch) -> Result<(), Refusal>
        ensures ok { OnOk result (Fits (database_after self.now.batches) batch.now) }
        ensures err { IfErr result (λ refusal.
            IsRefusal (database_after self.now.batches) batch.now refusal) }
    {
        self.writer.published().table.check(batch)
    }

    /// The best answer in the published database.
    pub(crate) fn best(&self, alloc: Global, request: &Request) -> Result<Outcome, AllocError>
        ensures { IfOk result (IsBestAfter self.now.batches request.now) }
    {
        best(alloc, &self.writer.published().table, request)
    }

    /// Publishes a recorded batch, counts it as published, and returns the new version.
    pub(crate) fn publish<R: Wait>(&mut self, rt: &R, batch: Batch, recorded: Known) -> u32
        requires next { MayFollow self.old.batches batch }
        requires recorded { recorded ≡ known_with self.old.batches self.old.source batch }
        ensures known { self.new ≡ recorded }
        ensures version { result ≡ length self.new.batches }
    {
        let shape_changes = self.writer.published().shape_changes_with(&batch);
        let next = PendingBatch {
            batch,
            known: recorded,
            shape_changes,
        };
        append(&mut self.writer, rt, next);
        let version = replace_with(&mut self.writer, rt, swap_replicas::<R>);
        count_shown(&mut self.right, rt, &self.count, &self.writer);
        version
    }

    /// The steps of the journal, up to the last step that counts a batch as published. These steps
    /// count all published batches.
    pub(crate) fn steps(&self) -> SeenSteps
        ensures source { result.source ≡ self.now.source }
        ensures count { count_of result.steps ≡ length self.now.batches }
        ensures recorded { BeginsWith (batches_of result.steps) self.now.batches }
    {
        self.right.steps()
    }

    /// Returns a value from which askers learn of the batches that are published now.
    pub(crate) fn tell(&self) -> Told
        ensures { result ≡ self.now }
    {
        Told::new(self.known())
    }

    /// Drops both replicas (the table's two copies), and returns the batches of the replica that
    /// was published last.
    pub(crate) fn close<R: Wait>(self, rt: &R) -> Known
        ensures { result ≡ self }
    {
        let Replicas {
            writer,
            right: _right,
            count: _count,
        } = self;
        let shown = writer.take(rt);
        shown.known.copy()
    }
}
