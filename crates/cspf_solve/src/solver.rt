//! The solver answers the rows of a stream one after the other. It has a table, the version of this
//! table, and the counts of a run.

ghost use Rattle.std.specs.Prelude.{◌≡◌, ◌+◌, ◌<◌, ◌≤◌, ◌^◌, IfOk, OnOk};

use crate::Summary;
use crate::table_sink::TableSink;
use cspf_db::Table;
use cspf_model::{absorbing, one_refusal};
use cspf_rows::{Row, RowError};
use cspf_stream::{Answering, Ending, Rows};
use cspf_trees::{MOST_TREES, TreeTable};
use csv::ByteRecord;
use std::alloc::{AllocError, Global};

/// The state of a run between two rows of its stream. Its memory doesn't grow with the length of
/// the stream. The state has only the database, the open changes, and the trees of lower bounds
/// that the table keeps.
#[derive(Drop)]
pub struct Solver {
    /// The database of the accepted batches, and the open changes.
    rows: Rows<TableSink>,
    /// How many rows of the stream were read.
    read: u64,
}

impl Answering<()> for Solver {
    type Fault = AllocError;

    ghost use Rattle.std.specs.Prelude.{◌<◌};
    ghost use Rattle.cspf_rows.specs.Rows.{row_of};
    ghost use Rattle.cspf_solve.specs.SolverStates.{IsAnsweredBySolver, AreBelow};

    ghost answers = { λ place old fields. IsAnsweredBySolver old (row_of fields) };

    ghost fails = { λ fault place old fields new. Unit {0} };

    // Each count of the solver is below the number of the next row, because the answer to a row
    // adds at most 1 to each count.
    ghost may_stand = { λ place solver. AreBelow place solver };

    fn answer(
        &mut self,
        _context: &(),
        alloc: Global,
        _place: u64,
        fields: &ByteRecord,
    ) -> Result<Vec<u8>, AllocError> {
        Solver::answer(self, alloc, &Row::read(fields))
    }
}

impl Ending for Solver {
    ghost use Rattle.cspf_solve.specs.SolverStates.{IsSolverLast};

    ghost last = { IsSolverLast };

    fn last_line(&self, alloc: Global, too_many: bool) -> Result<Vec<u8>, AllocError> {
        Solver::last_line(self, alloc, too_many)
    }
}

impl Solver {
    ghost use Rattle.cspf_solve.specs.Script.{RunState, start, at_next_row, after_reply, after_refused_row, IsRowAnswered, summary_of};
    ghost use Rattle.cspf_stream.specs.Lines.{last_line};
    ghost use Rattle.cspf_solve.specs.SolverStates.{KeepsRun, AreFew, AreWithinOne, AreCounted};
    ghost use Rattle.cspf_trees.specs.declared.limits.TheConstants.{MOST_TREES};

    /// A solver before the first row of its stream: version 0, the empty database and no open
    /// changes. Its table keeps at most `MOST_TREES` trees of lower bounds.
    pub fn new(alloc: Global) -> Result<Solver, AllocError>
        ensures start { IfOk result (λ solver. KeepsRun solver start) }
        ensures trees { IfOk result (λ solver. solver.rows.sink.table.most_trees ≡ MOST_TREES) }
    {
        Solver::with_trees(alloc, MOST_TREES)
    }

    /// As `new`, but the table keeps at most `most` trees of lower bounds, and never more than
    /// `MOST_TREES`. If `most` is 0, the table keeps no trees. The answers don't depend on `most`.
    pub fn with_trees(alloc: Global, most: usize) -> Result<Solver, AllocError>
        ensures start { IfOk result (λ solver. KeepsRun solver start) }
        ensures trees { IfOk result (λ solver. solver.rows.sink.table.most_trees ≡ most) }
    {
        let sink = TableSink {
            table: TreeTable::with_trees(alloc, most)?,
            version: 0,
        };
        Ok(Solver {
            rows: Rows::new(alloc, sink),
            read: 0,
        })
    }

    /// Answers one more row of the stream, and returns the line that answers this row. The line of
    /// a change is empty.
    pub fn answer(
        &mut self,
        alloc: Global,
        row: &Result<Row, RowError>,
    ) -> Result<Vec<u8>, AllocError>
        requires { AreFew self.old }
        ensures answered { IfOk result (λ line. (s : RunState) → KeepsRun self.old s → (after : RunState)
            × KeepsRun self.new after × IsRowAnswered (at_next_row s) row.now line.items after) }
        ensures counts { AreWithinOne self.old self.new }
    {
        // Law: the database after one more batch is the database after the batches before it, with
        // the changes of this batch made. Law: a batch that is refused for a reason doesn't fit the
        // database.
        absorbing();
        one_refusal();
        self.read += 1;
        self.rows.answer(&(), alloc, self.read, row)
    }

    /// The last line of the run. If there are too many rows, the line reports only this. Otherwise
    /// it says how many changes are still open, and is empty if no changes are open.
    pub fn last_line(&self, alloc: Global, too_many: bool) -> Result<Vec<u8>, AllocError>
        ensures { IfOk result (λ line. (s : RunState) → KeepsRun self.now s
            → line.items ≡ last_line too_many s.changes) }
    {
        self.rows.last_line(alloc, too_many)
    }

    /// The table with the database of the accepted batches.
    pub fn table(&self) -> &Table
        ensures { result.now ≡ self.now.rows.sink.table.database }
    {
        self.rows.sink.table.table()
    }

    /// The version of the database: how many batches were accepted.
    pub fn version(&self) -> u32
        ensures { result ≡ self.now.rows.sink.version }
    {
        self.rows.sink.version
    }

    /// How many rows of the stream were read.
    pub fn read(&self) -> u64
        ensures { result ≡ self.now.read }
    {
        self.read
    }

    /// Counts one more row of the stream, which the caller has read and answered.
    pub fn count_answer(&mut self)
        requires { AreFew self.old }
        ensures state { (s : RunState) → KeepsRun self.old s
            → KeepsRun self.new (after_reply (at_next_row s)) }
        ensures counts { AreWithinOne self.old self.new }
    {
        self.read = self.read + 1;
        self.rows.answers += 1;
    }

    /// Counts one more row of the stream, which the caller has read and refused.
    pub fn count_refused(&mut self)
        requires { AreFew self.old }
        ensures state { (s : RunState) → KeepsRun self.old s
            → KeepsRun self.new (after_refused_row (at_next_row s)) }
        ensures counts { AreWithinOne self.old self.new }
    {
        self.read = self.read + 1;
        self.rows.refused += 1;
    }

    /// The summary of a run that ends in this state.
    pub fn summary(&self, too_many: bool) -> Summary
        requires { AreCounted self.now }
        ensures { (s : RunState) → KeepsRun self.now s → result ≡ summary_of s too_many }
    {
        let unended = !too_many && self.rows.changes.count > 0;
        Summary {
            rows: self.read as u32,
            version: self.rows.sink.version,
            answers: self.rows.answers as u32,
            refused: self.rows.refused as u32 + u32::from(unended),
            too_many,
        }
    }
}
