//! Turns what the search has found into an outcome, if the check passes it.

ghost use Rattle.std.specs.Prelude.{◌≡◌, true, IfOk, IfSome};
ghost use Rattle.cspf_model.specs.Best.{HasEnds};
ghost use Rattle.cspf_pair.specs.Pairs.{IsWay};
ghost use Rattle.cspf_pair.specs.Potentials.{AreOfKind};
ghost use Rattle.cspf_pair.specs.Answers.{IsBestPair, IsBestPairAnswer, pair_answer_of};
ghost use Rattle.cspf_disjoint.specs.Potentials.{potentials_of};

use crate::judging::{each_has, each_passes, has_no_way, is_least};
use crate::order::compare_routes;
use crate::potentials::{PotentialLists, lists_of_kind};
use crate::sharing::share_nothing;
use crate::ways::way_along;
use cspf_addr::Addr;
use cspf_db::Table;
use cspf_model::Route;
use cspf_pair::{Kind, PairOutcome, PairRequest};
use cspf_pair_search::{Found, Verdict};
use std::alloc::{AllocError, Global};
use std::cmp::Ordering;

/// Whether the two ways are a pair, no pair is smaller, and the second way doesn't come before the
/// first.
fn is_best_pair(
    alloc: Global,
    table: &Table,
    request: &PairRequest,
    lists: PotentialLists<'_>,
    one: &Route,
    other: &Route,
) -> Result<bool, AllocError>
    requires fits { AreOfKind request.now.kind (potentials_of table.now lists) }
    requires first { IsWay table.now request.now.request one.now }
    requires second { IsWay table.now request.now.request other.now }
    ensures { IfOk result (λ yes. yes ≡ true
        → IsBestPair table.now request.now.request request.now.kind one.now other.now) }
{
    let asked = &request.request;
    let kind = request.kind;
    if !share_nothing(alloc, asked, kind, one.links(), other.links())? {
        return Ok(false);
    }
    if !is_least(table, asked, kind, lists, one.links(), other.links()) {
        return Ok(false);
    }
    Ok(compare_routes(alloc, other, one)? != Ordering::Less)
}

/// The pair of these two ways, if the check passes it.
fn checked_pair(
    alloc: Global,
    table: &Table,
    request: &PairRequest,
    lists: PotentialLists<'_>,
    one: &[usize],
    other: &[usize],
) -> Result<Option<PairOutcome>, AllocError>
    requires fits { AreOfKind request.now.kind (potentials_of table.now lists) }
    requires ends { HasEnds table.now request.now.request }
    ensures { IfOk result (λ found. IfSome found (λ outcome. IsBestPairAnswer
        table.now request.now.request request.now.kind (pair_answer_of outcome))) }
{
    let Some(first) = way_along(alloc, table, &request.request, one)? else {
        return Ok(None);
    };
    let Some(second) = way_along(alloc, table, &request.request, other)? else {
        return Ok(None);
    };
    if !is_best_pair(alloc, table, request, lists, &first, &second)? {
        return Ok(None);
    }
    Ok(Some(PairOutcome::Pair(first, second)))
}

/// The link that each way has, if the check passes it. `way` is some way.
fn checked_link(
    alloc: Global,
    table: &Table,
    request: &PairRequest,
    lists: PotentialLists<'_>,
    way: &[usize],
    row: usize,
) -> Result<Option<PairOutcome>, AllocError>
    requires ends { HasEnds table.now request.now.request }
    ensures { IfOk result (λ found. IfSome found (λ outcome. IsBestPairAnswer
        table.now request.now.request request.now.kind (pair_answer_of outcome))) }
{
    let Some(_way) = way_along(alloc, table, &request.request, way)? else {
        return Ok(None);
    };
    let Some(link) = table.links().get(row) else {
        return Ok(None);
    };
    if !each_has(table, &request.request, lists, link) {
        return Ok(None);
    }
    Ok(Some(PairOutcome::EachBy(*link)))
}

/// The router that each way passes through, if the check passes it. `way` is some way.
fn checked_router(
    alloc: Global,
    table: &Table,
    request: &PairRequest,
    lists: PotentialLists<'_>,
    way: &[usize],
    router: Addr,
) -> Result<Option<PairOutcome>, AllocError>
    requires ends { HasEnds table.now request.now.request }
    ensures { IfOk result (λ found. IfSome found (λ outcome. IsBestPairAnswer
        table.now request.now.request request.now.kind (pair_answer_of outcome))) }
{
    if request.kind == Kind::Circuits {
        return Ok(None);
    }
    let Some(_way) = way_along(alloc, table, &request.request, way)? else {
        return Ok(None);
    };
    if !each_passes(table, &request.request, lists, router) {
        return Ok(None);
    }
    Ok(Some(PairOutcome::EachThrough(router)))
}

/// The outcome of what the search has found, or `None` if the check refuses it.
pub(crate) fn checked(
    alloc: Global,
    table: &Table,
    request: &PairRequest,
    found: &Found,
) -> Result<Option<PairOutcome>, AllocError>
    requires ends { HasEnds table.now request.now.request }
    ensures { IfOk result (λ found. IfSome found (λ outcome. IsBestPairAnswer
        table.now request.now.request request.now.kind (pair_answer_of outcome))) }
{
    let lists = lists_of_kind(request.kind, &found.arriving, &found.leaving);
    match found.verdict {
        Verdict::Pair => checked_pair(alloc, table, request, lists, &found.one, &found.other),
        Verdict::EachBy(row) => checked_link(alloc, table, request, lists, &found.one, row),
        Verdict::EachThrough(router) => {
            checked_router(alloc, table, request, lists, &found.one, router)
        }
        Verdict::NoWay => {
            if has_no_way(table, &request.request, lists) {
                Ok(Some(PairOutcome::NoRoute))
            } else {
                Ok(None)
            }
        }
    }
}
