//! Trees and pairs while allocations are refused: each request gets its answer or an allocation
//! error. Once allocations succeed again, each request gets its answer.

ghost use Rattle.cspf_trees.specs.Trees.{AreTreesOf};

use super::{ONE, TWO, is_along, is_route, link, request, table_of};
use cspf_db::Table;
use cspf_disjoint::{PairError, best_pair};
use cspf_model::{Change, Request};
use cspf_pair::{Kind, PairOutcome, PairRequest};
use cspf_trees::{MOST_TREES, Trees};
use std::alloc::{AllocError, Global};
use std::test::Fail;

// Whether an allocation of one byte succeeds now.
fn has_memory(alloc: Global) -> bool {
    match Vec::from_slice(alloc, &[1u8]) {
        Ok(bytes) => bytes.len() == 1,
        Err(_) => false,
    }
}

// Whether the request gets its route of one link nine times in a row. The sixth request grows a
// tree.
fn are_routes(
    alloc: Global,
    table: &Table,
    request: &Request,
    trees: &mut Trees,
) -> Result<bool, AllocError>
    requires { AreTreesOf table.now trees.old }
{
    let mut all = true;
    for _ask in 0..9 {
        let found = trees.best(alloc, table, request)?;
        all = all && is_route(&found, 10, false, &[2]);
    }
    Ok(all)
}

// Whether the request gets this route nine times in a row, from a new table that has absorbed these
// changes, and with new trees.
fn are_routes_after(
    alloc: Global,
    changes: &[Change],
    request: &Request,
) -> Result<bool, AllocError> {
    let table = table_of(alloc, changes)?;
    let mut trees = Trees::from_ask(alloc, MOST_TREES, 6);
    are_routes(alloc, &table, request, &mut trees)
}

// Whether a request from ONE to TWO gets its route of one link from a table that has absorbed these
// changes, as `are_routes_after` says, or an allocation error and then its route.
fn are_routes_at_last(alloc: Global, changes: &[Change]) -> Result<bool, Fail> {
    let asked = request((ONE, TWO), 0, (0, 0, 0), b"")?;
    Ok(match are_routes_after(alloc, changes, &asked) {
        Err(_refused) => {
            !has_memory(alloc) || are_routes_after(alloc, changes, &asked) == Ok(true)
        }
        found => found == Ok(true),
    })
}

#[test]
fn answers_by_trees_while_memory_is_refused(rt: HostRuntime) -> Result<(), Fail> {
    let changes = [
        Change::Put(link(&(ONE, 1, TWO, 2, 10, 1000))?),
        Change::Put(link(&(TWO, 2, ONE, 1, 10, 0))?),
    ];
    let found = are_routes_at_last(rt.alloc(), &changes)?;
    assert!(rt; found);
    Ok(())
}

// The link of the least metric has no unreserved bandwidth, so that the walk by a tree ends at once,
// and the tree guides a search.
#[test]
fn answers_by_guided_searches_while_memory_is_refused(rt: HostRuntime) -> Result<(), Fail> {
    let changes = [
        Change::Put(link(&(ONE, 1, TWO, 2, 10, 1000))?),
        Change::Put(link(&(TWO, 2, ONE, 1, 10, 0))?),
        Change::Put(link(&(ONE, 3, TWO, 4, 5, 0))?),
        Change::Put(link(&(TWO, 4, ONE, 3, 5, 0))?),
    ];
    let found = are_routes_at_last(rt.alloc(), &changes)?;
    assert!(rt; found);
    Ok(())
}

// Whether the request gets its pair of ways of one link each, from a new table that has absorbed
// these changes.
fn is_pair_after(
    alloc: Global,
    changes: &[Change],
    request: &PairRequest,
) -> Result<bool, PairError> {
    let table = table_of(alloc, changes)?;
    match best_pair(alloc, &table, request)? {
        PairOutcome::Pair(one, other) => {
            Ok(is_along(&one, 10, &[2]) && is_along(&other, 20, &[4]))
        }
        _ => Ok(false),
    }
}

#[test]
fn answers_pairs_while_memory_is_refused(rt: HostRuntime) -> Result<(), Fail> {
    let alloc = rt.alloc();
    let changes = [
        Change::Put(link(&(ONE, 1, TWO, 2, 10, 1000))?),
        Change::Put(link(&(TWO, 2, ONE, 1, 10, 0))?),
        Change::Put(link(&(ONE, 3, TWO, 4, 20, 1000))?),
        Change::Put(link(&(TWO, 4, ONE, 3, 20, 0))?),
    ];
    let asked = PairRequest {
        request: request((ONE, TWO), 0, (0, 0, 0), b"")?,
        kind: Kind::Routers,
    };
    let found = match is_pair_after(alloc, &changes, &asked) {
        Err(PairError::Memory) => !has_memory(alloc)
            || is_pair_after(alloc, &changes, &asked) == Ok(true),
        found => found == Ok(true),
    };
    assert!(rt; found);
    Ok(())
}
