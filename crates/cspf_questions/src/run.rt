//! The run over rows that also ask questions.

ghost use Rattle.std.specs.Prelude.{◌≡◌, ℕ, List, true, IfOk, IfErr, IfSome};
ghost use Rattle.std.specs.Io.KnownBytes.{Appends};
ghost use Rattle.csv.specs.Reading.{has_failed};
ghost use Rattle.cspf_rows.specs.Records.{rows_of, rows_left, IsPlain};
ghost use Rattle.cspf_solve.specs.declared.error.SolveError.TheVariants.{Read as IsRead};
ghost use Rattle.cspf_questions.specs.declared.run_error.QuestionRunError.TheVariants.{Solve as OfSolve};
ghost use Rattle.cspf_solve.specs.Script.{start};
ghost use Rattle.cspf_solve.specs.SolverStates.{KeepsRun};
ghost use Rattle.cspf_questions.specs.QuestionScript.{IsQuestionRun, IsQuestionScript, IsQuestionOutputAtError};

use crate::kinds::QuestionKinds;
use crate::run_error::QuestionRunError;
use crate::solver::QuestionSolver;
use cspf_rows::{MOST_ROWS, open_records};
use cspf_solve::{RunOptions, Solver, Summary};
use cspf_stream::run_rows;
use csv::Reader;
use std::alloc::Global;
use std::io::{Read, Write};

/// As `run_solve_with` of `cspf_solve`, but questions of these kinds are answered, too.
/// `IsQuestionScript` defines the lines, and when a row or a batch is refused.
pub fn run_questions<R: Read + Drop, W: Write>(
    alloc: Global,
    reader: R,
    writer: &mut W,
    options: RunOptions,
    kinds: QuestionKinds,
) -> Result<Summary, QuestionRunError>
    ensures whole { IfOk result (λ summary. IfSome (R.remaining reader) (λ bytes.
        (lines : List ℕ) × IsQuestionScript kinds bytes lines summary
        × Appends (W.contents writer.old) (W.contents writer.new) lines)) }
    ensures stopped { IfErr result (λ error. IfSome (R.remaining reader) (λ bytes.
        (out : List ℕ) × IsQuestionOutputAtError kinds error (rows_of bytes) out
        × Appends (W.contents writer.old) (W.contents writer.new) out)) }
{
    let mut solver = QuestionSolver {
        solver: Solver::with_trees(alloc, options.trees)?,
        kinds,
    };
    let mut rows = open_records(alloc, reader);
    solve_rows(alloc, &mut rows, &mut solver, writer)
}

/// Answers the rows that the reader still has, and writes the last line.
fn solve_rows<R: Read, W: Write>(
    alloc: Global,
    rows: &mut Reader<R>,
    solver: &mut QuestionSolver,
    writer: &mut W,
) -> Result<Summary, QuestionRunError>
    requires plain { IsPlain rows.old }
    requires fresh { KeepsRun solver.old.solver start }
    ensures whole { IfOk result (λ summary. IfSome (rows_left R.remaining rows.old) (λ all.
        (lines : List ℕ) × IsQuestionRun solver.old.kinds all lines summary
        × Appends (W.contents writer.old) (W.contents writer.new) lines)) }
    ensures stopped { IfErr result (λ error. IfSome (rows_left R.remaining rows.old) (λ all.
        (out : List ℕ) × IsQuestionOutputAtError solver.old.kinds error all out
        × Appends (W.contents writer.old) (W.contents writer.new) out)) }
    // If the error is `Read`, a read failed.
    ensures read { IfErr result (λ error. error ≡ OfSolve IsRead → has_failed rows.new ≡ true) }
{
    let limit = u64::from(MOST_ROWS);
    match run_rows(alloc, limit, rows, writer, solver) {
        Ok(too_many) => Ok(solver.solver.summary(too_many)),
        Err(stop) => Err(QuestionRunError::from(stop)),
    }
}
