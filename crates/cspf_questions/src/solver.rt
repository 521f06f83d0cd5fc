//! The solver that also answers questions.

ghost use Rattle.std.specs.Prelude.{◌≡◌, ◌+◌, IfOk, OnOk};

use crate::error::QuestionError;
use crate::kinds::QuestionKinds;
use crate::line::refused_question;
use crate::question::Question;
use crate::reading::ReadFields;
use cspf_disjoint::PairError;
use cspf_rows::{Row, RowError};
use cspf_solve::Solver;
use cspf_stream::{Answering, Ending};
use csv::ByteRecord;
use std::alloc::{AllocError, Global};

/// A solver that also answers questions of some kinds.
#[derive(Drop)]
pub struct QuestionSolver {
    /// The solver.
    pub solver: Solver,
    /// The kinds of questions that are answered.
    pub kinds: QuestionKinds,
}

impl Answering<()> for QuestionSolver {
    type Fault = PairError;

    ghost use Rattle.cspf_solve.specs.SolverStates.{AreBelow};
    ghost use Rattle.cspf_questions.specs.QuestionStates.{IsAnsweredByBoth};

    ghost answers = { IsAnsweredByBoth };

    ghost fails = { λ fault place old fields new. Unit {0} };

    // Each count of the solver is below the number of the next row, because the answer to a row
    // adds at most 1 to each count.
    ghost may_stand = { λ place both. AreBelow place both.solver };

    fn answer(
        &mut self,
        _context: &(),
        alloc: Global,
        _place: u64,
        fields: &ByteRecord,
    ) -> Result<Vec<u8>, PairError> {
        let read = ReadFields::of(alloc, self.kinds, fields)?;
        self.take(alloc, &read)
    }
}

impl Ending for QuestionSolver {
    ghost use Rattle.cspf_questions.specs.QuestionStates.{IsLastOfBoth};

    ghost last = { IsLastOfBoth };

    fn last_line(&self, alloc: Global, too_many: bool) -> Result<Vec<u8>, AllocError> {
        self.solver.last_line(alloc, too_many)
    }
}

impl QuestionSolver {
    ghost use Rattle.cspf_questions.specs.QuestionLines.{IsQuestionReply, refused_question_line};
    ghost use Rattle.cspf_questions.specs.QuestionStates.{IsReadTaken};
    ghost use Rattle.cspf_solve.specs.Script.{RunState, IsRowAnswered, after_refused_row, after_reply, at_next_row, current_database, current_version};
    ghost use Rattle.cspf_solve.specs.SolverStates.{KeepsRun, AreFew, AreWithinOne};

    /// Answers a row that was read.
    fn take(&mut self, alloc: Global, read: &ReadFields) -> Result<Vec<u8>, PairError>
        requires { AreFew self.old.solver }
        ensures taken { IfOk result (λ line. IsReadTaken self.old read.now line.items self.new) }
        ensures counts { AreWithinOne self.old.solver self.new.solver }
        ensures kinds { self.new.kinds ≡ self.old.kinds }
    {
        match read {
            ReadFields::Row(row) => self.answer_row(alloc, row),
            ReadFields::Question(question) => self.question(alloc, question),
            ReadFields::Refused(why) => self.refuse(alloc, *why),
        }
    }

    /// Answers a row of a database, or refuses a record that is no such row.
    fn answer_row(
        &mut self,
        alloc: Global,
        row: &Result<Row, RowError>,
    ) -> Result<Vec<u8>, PairError>
        requires { AreFew self.old.solver }
        ensures answered { IfOk result (λ line. (s : RunState) → KeepsRun self.old.solver s → (after : RunState)
            × KeepsRun self.new.solver after × IsRowAnswered (at_next_row s) row.now line.items after) }
        ensures counts { AreWithinOne self.old.solver self.new.solver }
        ensures kinds { self.new.kinds ≡ self.old.kinds }
    {
        let line = self.solver.answer(alloc, row)?;
        Ok(line)
    }

    /// Answers a question from the solver's table.
    fn question(&mut self, alloc: Global, question: &Question) -> Result<Vec<u8>, PairError>
        requires { AreFew self.old.solver }
        ensures reply { IfOk result (λ line. (s : RunState) → KeepsRun self.old.solver s
            → IsQuestionReply (current_database s) (current_version s) question.now line.items) }
        ensures state { OnOk result ((s : RunState) → KeepsRun self.old.solver s
            → KeepsRun self.new.solver (after_reply (at_next_row s))) }
        ensures counts { AreWithinOne self.old.solver self.new.solver }
        ensures kinds { self.new.kinds ≡ self.old.kinds }
    {
        let version = self.solver.version();
        let line = question.reply_from(alloc, self.solver.table(), version)?;
        self.solver.count_answer();
        Ok(line)
    }

    /// Refuses the row of a question.
    fn refuse(&mut self, alloc: Global, why: QuestionError) -> Result<Vec<u8>, PairError>
        requires { AreFew self.old.solver }
        ensures line { IfOk result (λ line. (s : RunState) → KeepsRun self.old.solver s
            → line.items ≡ refused_question_line (s.rows + 1) why) }
        ensures state { OnOk result ((s : RunState) → KeepsRun self.old.solver s
            → KeepsRun self.new.solver (after_refused_row (at_next_row s))) }
        ensures counts { AreWithinOne self.old.solver self.new.solver }
        ensures kinds { self.new.kinds ≡ self.old.kinds }
    {
        let line = refused_question(alloc, self.solver.read() + 1, why)?;
        self.solver.count_refused();
        Ok(line)
    }
}
