//! The run of `solve`: it reads one stream of rows and writes the line that answers each row.

ghost use Rattle.std.specs.Prelude.{◌≡◌, ℕ, List, true, IfOk, IfErr, IfSome};
ghost use Rattle.std.specs.Io.KnownBytes.{Appends};
ghost use Rattle.csv.specs.Reading.{has_failed};
ghost use Rattle.cspf_rows.specs.Records.{rows_of, rows_left, IsPlain};
ghost use Rattle.cspf_solve.specs.declared.error.SolveError.TheVariants.{Read as IsRead};
ghost use Rattle.cspf_solve.specs.Script.{start, IsSolveRun, IsScript};
ghost use Rattle.cspf_solve.specs.OutputAtError.{IsOutputAtError};
ghost use Rattle.cspf_solve.specs.SolverStates.{KeepsRun};

use crate::{RunOptions, SolveError, Solver, Summary};
use cspf_rows::{MOST_ROWS, open_records};
use cspf_stream::run_rows;
use csv::Reader;
use std::alloc::Global;
use std::io::{Read, Write};

/// Reads a stream of rows, and writes the line that answers each row before it reads the next row.
/// A line is written in one write, if the writer accepts all its bytes at once. `IsScript` defines
/// the lines, and when a row or a batch is refused. At most 1,000,000 rows are answered. Memory is
/// needed only for the longest row, the database, the open changes and the trees of lower bounds.
/// `RunOptions::new` limits the number of these trees.
///
/// After an error, the lines of a prefix of the rows are written. The error `Read` means that a
/// read failed. The error `Write` means that a write failed or wrote no byte. A part of the next
/// line may then be written, but never all of it. The function doesn't flush the writer.
pub fn run_solve<R: Read + Drop, W: Write>(
    alloc: Global,
    reader: R,
    writer: &mut W,
) -> Result<Summary, SolveError>
    ensures whole { IfOk result (λ summary. IfSome (R.remaining reader) (λ bytes.
        (lines : List ℕ) × IsScript bytes lines summary
        × Appends (W.contents writer.old) (W.contents writer.new) lines)) }
    ensures stopped { IfErr result (λ error. IfSome (R.remaining reader) (λ bytes.
        (out : List ℕ) × IsOutputAtError error (rows_of bytes) out
        × Appends (W.contents writer.old) (W.contents writer.new) out)) }
{
    run_solve_with(alloc, reader, writer, RunOptions::new())
}

/// As `run_solve`, but the table keeps at most `options.trees` trees of lower bounds, and never
/// more than `MOST_TREES` of `cspf_trees`.
pub fn run_solve_with<R: Read + Drop, W: Write>(
    alloc: Global,
    reader: R,
    writer: &mut W,
    options: RunOptions,
) -> Result<Summary, SolveError>
    ensures whole { IfOk result (λ summary. IfSome (R.remaining reader) (λ bytes.
        (lines : List ℕ) × IsScript bytes lines summary
        × Appends (W.contents writer.old) (W.contents writer.new) lines)) }
    ensures stopped { IfErr result (λ error. IfSome (R.remaining reader) (λ bytes.
        (out : List ℕ) × IsOutputAtError error (rows_of bytes) out
        × Appends (W.contents writer.old) (W.contents writer.new) out)) }
{
    let mut solver = Solver::with_trees(alloc, options.trees)?;
    let mut rows = open_records(alloc, reader);
    solve_rows(alloc, &mut rows, &mut solver, writer)
}

/// Answers the rows that the reader still has, and writes the last line.
fn solve_rows<R: Read, W: Write>(
    alloc: Global,
    rows: &mut Reader<R>,
    solver: &mut Solver,
    writer: &mut W,
) -> Result<Summary, SolveError>
    requires plain { IsPlain rows.old }
    requires fresh { KeepsRun solver.old start }
    ensures whole { IfOk result (λ summary. IfSome (rows_left R.remaining rows.old) (λ all.
        (lines : List ℕ) × IsSolveRun all lines summary
        × Appends (W.contents writer.old) (W.contents writer.new) lines)) }
    ensures stopped { IfErr result (λ error. IfSome (rows_left R.remaining rows.old) (λ all.
        (out : List ℕ) × IsOutputAtError error all out
        × Appends (W.contents writer.old) (W.contents writer.new) out)) }
    // If the error is `Read`, a read failed.
    ensures read { IfErr result (λ error. error ≡ IsRead → has_failed rows.new ≡ true) }
{
    let limit = u64::from(MOST_ROWS);
    match run_rows(alloc, limit, rows, writer, solver) {
        Ok(too_many) => Ok(solver.summary(too_many)),
        Err(stop) => Err(SolveError::from(stop)),
    }
}
