ghost use Rattle.std.specs.Prelude.{IfOk};
ghost use Rattle.cspf_pair.specs.Answers.{IsBestPairAnswer, pair_answer_of};

use crate::answering::checked;
use crate::error::PairError;
use cspf_db::Table;
use cspf_pair::{PairOutcome, PairRequest};
use cspf_pair_search::find;
use std::alloc::Global;

/// The best answer to a request for a pair in the table's database. A pair that is returned has the
/// least size of all pairs, and a reason that is returned is right.
pub fn best_pair(
    alloc: Global,
    table: &Table,
    request: &PairRequest,
) -> Result<PairOutcome, PairError>
    ensures { IfOk result (λ outcome. IsBestPairAnswer
        table.now request.now.request request.now.kind (pair_answer_of outcome)) }
{
    if !table.has_router(request.request.from) {
        return Ok(PairOutcome::UnknownFrom);
    }
    if !table.has_router(request.request.to) {
        return Ok(PairOutcome::UnknownTo);
    }
    let Some(from) = table.place_of(request.request.from) else {
        return Err(PairError::Undecided);
    };
    let Some(to) = table.place_of(request.request.to) else {
        return Err(PairError::Undecided);
    };
    let found = find(alloc, table, request, from, to)?;
    match checked(alloc, table, request, &found)? {
        Some(outcome) => Ok(outcome),
        None => Err(PairError::Undecided),
    }
}
