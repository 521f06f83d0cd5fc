//! A session: a solver, and how many rows the solver has answered.

ghost use Rattle.std.specs.Prelude.{◌≡◌, ◌++◌, ℕ, List, [], IfOk};
ghost use Rattle.cspf_rows.specs.Records.{rows_of};
ghost use Rattle.cspf_solve.specs.Script.{IsSolveRun};
ghost use Rattle.cspf_solve.specs.declared.summary.Summary.{Summary};
ghost use Rattle.cspf_c.specs.History.{HasAnswered, IsCounted, IsOneMore};

use cspf_rows::{MOST_ROWS, Row, open_records};
use cspf_solve::{Solver, runs_go_on_row_by_row};
use cspf_stream::{Answering, answer_rows};
use csv::ByteRecord;
use std::alloc::{AllocError, Global};

/// The state of a session after the rows that it was given.
#[derive(Drop)]
pub struct TakenRows {
    /// The solver, which answers the first 1,000,000 rows.
    solver: Solver,
    /// How many rows the solver has answered.
    answered: u32,
    /// Whether more than 1,000,000 rows were given.
    too_many: bool,
}

/// The argument `_context` isn't used.
impl<C> Answering<C> for TakenRows {
    type Fault = AllocError;

    ghost answers = { IsOneMore };

    ghost fails = { λ fault place old fields new. Unit {0} };

    ghost may_stand = { λ place taken. ∥ IsCounted taken ∥₁ };

    fn answer(
        &mut self,
        _context: &C,
        alloc: Global,
        _place: u64,
        fields: &ByteRecord,
    ) -> Result<Vec<u8>, AllocError> {
        // Law: if a run answers some rows and then one more row, it answers the list of all these
        // rows. Law: the answer to a row adds at most 1 to each count of a run.
        runs_go_on_row_by_row();
        if self.answered >= MOST_ROWS {
            self.too_many = true;
            return Ok(Vec::new(alloc));
        }
        let line = self.solver.answer(alloc, &Row::read(fields))?;
        self.answered += 1;
        Ok(line)
    }
}

/// A session. Its solver has the database and the open changes that result from the rows that the
/// session was given.
#[derive(Drop)]
pub struct SolveSession {
    taken: TakenRows,
    ghost counted: { ∥ IsCounted taken ∥₁ },
}

impl SolveSession {
    /// A session that was given no row: version 0, the empty database and no open changes.
    pub(crate) fn new(alloc: Global) -> Result<SolveSession, AllocError>
        ensures { IfOk result (λ session. HasAnswered session.taken [] []) }
    {
        let taken = TakenRows {
            solver: Solver::new(alloc)?,
            answered: 0,
            too_many: false,
        };
        Ok(SolveSession { taken })
    }

    /// Reads the bytes as a stream of rows and answers these rows. Returns the session and the
    /// lines that answer the rows. If memory is refused, the session is dropped.
    pub(crate) fn answer(
        self,
        alloc: Global,
        bytes: &[u8],
    ) -> Result<(SolveSession, Vec<u8>), AllocError>
        ensures { IfOk result (λ answer. (rows : List (List (List ℕ))) (lines : List ℕ)
            → HasAnswered self.taken rows lines → HasAnswered answer.0.taken
            (rows ++ rows_of bytes.now) (lines ++ answer.1.items)) }
    {
        let SolveSession { mut taken } = self;
        let mut lines = Vec::new(alloc);
        let mut rows = open_records(alloc, bytes);
        match answer_rows(&(), alloc, &mut rows, &mut lines, &mut taken) {
            Ok(()) => Ok((SolveSession { taken }, lines)),
            // Memory was refused. No other error can occur: reading a slice can't fail, and no
            // slice has 2^64 rows.
            Err(_) => Err(AllocError),
        }
    }

    /// The last line of a run over all rows that the session was given.
    pub(crate) fn last_line(&self, alloc: Global) -> Result<Vec<u8>, AllocError>
        ensures { IfOk result (λ line. (rows : List (List (List ℕ))) (lines : List ℕ)
            → HasAnswered self.now.taken rows lines
            → (summary : Summary) × IsSolveRun rows (lines ++ line.items) summary) }
    {
        self.taken.solver.last_line(alloc, self.taken.too_many)
    }
}
