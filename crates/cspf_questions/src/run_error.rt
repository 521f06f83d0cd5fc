ghost use Rattle.std.specs.Prelude.{◌≡◌};

use cspf_disjoint::PairError;
use cspf_solve::SolveError;
use cspf_stream::RunStop;
use std::alloc::AllocError;
use std::error::Error;
use std::fmt;

/// Why a run that answers questions stops before the end of the rows of its stream.
#[derive(Clone, Copy, Debug, PartialEq, Eq)]
pub enum QuestionRunError {
    /// The reason is one for which a run without questions stops, too.
    Solve(SolveError),
    /// The answer to a request for a pair isn't proved by what the search found. No run is known in
    /// which this happens.
    Undecided,
}

impl fmt::Display for QuestionRunError {
    fn fmt<W: fmt::Write>(&self, f: &mut fmt::Formatter<W>) -> fmt::Result {
        match self {
            QuestionRunError::Solve(why) => write!(f, "{why}"),
            QuestionRunError::Undecided => write!(f, "{}", PairError::Undecided),
        }
    }
}

impl Error for QuestionRunError {}

impl From<AllocError> for QuestionRunError {
    ghost use Rattle.cspf_solve.specs.declared.error.SolveError.TheVariants as solve_error;
    ghost use Rattle.cspf_questions.specs.declared.run_error.QuestionRunError.TheVariants as run_error;

    ghost from_gives = { λ _ error. error ≡ run_error.Solve solve_error.Memory };

    fn from(_refused: AllocError) -> QuestionRunError {
        QuestionRunError::Solve(SolveError::Memory)
    }
}

impl From<RunStop<PairError>> for QuestionRunError {
    ghost use Rattle.cspf_questions.specs.QuestionStates.{question_run_error_of};

    ghost from_gives = { λ stop error. error ≡ question_run_error_of stop };

    fn from(stop: RunStop<PairError>) -> QuestionRunError {
        match stop {
            RunStop::Memory | RunStop::Answer(PairError::Memory) => {
                QuestionRunError::Solve(SolveError::Memory)
            }
            RunStop::Answer(PairError::Undecided) => QuestionRunError::Undecided,
            RunStop::Read => QuestionRunError::Solve(SolveError::Read),
            RunStop::Write { written } => QuestionRunError::Solve(SolveError::Write { written }),
        }
    }
}
