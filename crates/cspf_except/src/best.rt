//! The best answer to a request with exclusions.

ghost use Rattle.std.specs.Prelude.{IfOk};
ghost use Rattle.cspf_model.specs.Best.{HasEnds, IsBestAnswer};
ghost use Rattle.cspf_model.specs.Database.{Database, IsRouterOf};
ghost use Rattle.cspf_model.specs.declared.request.Request.{Request as Asked};
ghost use Rattle.cspf_model.specs.Outcome.{answer_of};
ghost use Rattle.cspf_except.specs.BestExcept.{IsBestExcept};
ghost use Rattle.cspf_except.specs.UnknownEnds.{IsBestUnlessUnknown};

use cspf_db::Table;
use cspf_exclusions::{Exclusions, without};
use cspf_model::{Outcome, Request};
use cspf_trees::best_without_tree;
use std::alloc::{AllocError, Global};

/// The best answer to a request that excludes links of the table's database. The answer is
/// `UnknownFrom` if the head-end isn't in the database, and else `UnknownTo` if the tail-end isn't.
/// Otherwise it is the least route in the database without the excluded links, or `NoRoute` if there
/// is no route. A hop is met only by the addresses that its routers have in the database without the
/// excluded links.
pub fn best_except(
    alloc: Global,
    table: &Table,
    request: &Request,
    exclusions: &Exclusions,
) -> Result<Outcome, AllocError>
    ensures { IfOk result (λ outcome.
        IsBestExcept table.now request.now exclusions.now (answer_of outcome)) }
{
    let copy = table.try_clone(alloc)?;
    best_except_in(alloc, copy, request, exclusions)
}

/// As `best_except`, but the table is changed, so that no copy of it is made.
pub fn best_except_in(
    alloc: Global,
    table: Table,
    request: &Request,
    exclusions: &Exclusions,
) -> Result<Outcome, AllocError>
    ensures { IfOk result (λ outcome.
        IsBestExcept table request.now exclusions.now (answer_of outcome)) }
{
    if table.has_router(request.from) {
        answer_from_known(alloc, table, request, exclusions)
    } else {
        Ok(Outcome::UnknownFrom)
    }
}

/// As `best_except_in`, for a known head-end.
fn answer_from_known(
    alloc: Global,
    table: Table,
    request: &Request,
    exclusions: &Exclusions,
) -> Result<Outcome, AllocError>
    requires { IsRouterOf table request.now.from }
    ensures { IfOk result (λ outcome.
        IsBestExcept table request.now exclusions.now (answer_of outcome)) }
{
    if table.has_router(request.to) {
        answer_between_known(alloc, table, request, exclusions)
    } else {
        Ok(Outcome::UnknownTo)
    }
}

/// As `best_except_in`, for known ends.
fn answer_between_known(
    alloc: Global,
    table: Table,
    request: &Request,
    exclusions: &Exclusions,
) -> Result<Outcome, AllocError>
    requires { HasEnds table request.now }
    ensures { IfOk result (λ outcome.
        IsBestExcept table request.now exclusions.now (answer_of outcome)) }
{
    let left = without(alloc, table, exclusions)?;
    route_or_none(alloc, &left, request)
}

/// The least route in the table's database, or `NoRoute` if there is none, as where the table lacks
/// the head-end or the tail-end.
fn route_or_none(alloc: Global, table: &Table, request: &Request) -> Result<Outcome, AllocError>
    ensures { IfOk result (λ outcome. IsBestUnlessUnknown table.now request.now (answer_of outcome)) }
{
    let found = best_without_tree(alloc, table, request)?;
    Ok(none_if_unknown(found))
}

/// The outcome, or `NoRoute` in place of an unknown end.
fn none_if_unknown(outcome: Outcome) -> Outcome
    ensures { (d : Database) (q : Asked) → IsBestAnswer d q (answer_of outcome)
        → IsBestUnlessUnknown d q (answer_of result) }
{
    match outcome {
        Outcome::Route(route) => Outcome::Route(route),
        Outcome::NoRoute => Outcome::NoRoute,
        Outcome::UnknownFrom => Outcome::NoRoute,
        Outcome::UnknownTo => Outcome::NoRoute,
    }
}
