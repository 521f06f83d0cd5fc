//! Which searches answer a request, with a tree or without.

ghost use Rattle.std.specs.Prelude.{IfOk, IfSome};
ghost use Rattle.cspf_model.specs.Best.{IsBestAnswer};
ghost use Rattle.cspf_model.specs.Outcome.{answer_of};
ghost use Rattle.cspf_search.specs.Trees.{IsTree};

use cspf_db::Table;
use cspf_meet::{best_by_bounds, best_from_both_ends};
use cspf_model::{Outcome, Request};
use cspf_search::{Tree, best, best_by_tree};
use std::alloc::{AllocError, Global};

/// The best answer to a request in the table's database, found without a tree. If the request has
/// no hops, the search from both ends answers it. If it has hops, or that search leaves it open,
/// `best` of `cspf_search` answers it.
pub fn best_without_tree(
    alloc: Global,
    table: &Table,
    request: &Request,
) -> Result<Outcome, AllocError>
    ensures { IfOk result (λ outcome.
        IsBestAnswer table.now request.now (answer_of outcome)) }
{
    if let Some(outcome) = best_from_both_ends(alloc, table, request)? {
        return Ok(outcome);
    }
    best(alloc, table, request)
}

/// The best answer to a request in the table's database that no walk by its tree has answered, found
/// by the search from the head-end that the tree guides. The result is `None` if that search leaves
/// the request open, or if the request has hops.
pub(crate) fn best_guided(
    alloc: Global,
    table: &Table,
    request: &Request,
    tree: &Tree,
) -> Result<Option<Outcome>, AllocError>
    requires { IsTree table.now request.now tree.now }
    ensures { IfOk result (λ found. IfSome found (λ outcome.
        IsBestAnswer table.now request.now (answer_of outcome))) }
{
    best_by_bounds(alloc, table, request, tree)
}

/// The best answer to a request in the table's database that its tree has left open. If the request
/// has no hops, the search from both ends answers it. If it has hops, or that search leaves it open
/// too, the search with the tree answers it.
pub(crate) fn best_after_tree(
    alloc: Global,
    table: &Table,
    request: &Request,
    tree: &Tree,
) -> Result<Outcome, AllocError>
    requires { IsTree table.now request.now tree.now }
    ensures { IfOk result (λ outcome.
        IsBestAnswer table.now request.now (answer_of outcome)) }
{
    if let Some(outcome) = best_from_both_ends(alloc, table, request)? {
        return Ok(outcome);
    }
    best_by_tree(alloc, table, request, tree)
}
