//! A row for one class of requests. The row gets a tree for the class once enough requests of the
//! class are counted. A class is all requests with one tail-end and the same affinities.

ghost use Rattle.std.specs.Prelude.{◌≡◌, ◌+◌, ◌<◌, ◌≤◌, true, false, All, None, IfOk, IfSome, length};
ghost use Rattle.cspf_model.specs.declared.request.Request.{Request as Asked};
ghost use Rattle.cspf_search.specs.Trees.{IsTree, ShareTrees};
ghost use Rattle.cspf_trees.specs.Classes.{HasClass};
ghost use Rattle.cspf_trees.specs.TreeRows.{IsAskedOf, IsEmptyTreeRow, HasTreeOf, row_count, tree_count};
ghost use Rattle.cspf_trees.specs.declared.limits.TheConstants.{MOST_TREES, WAYS};

use crate::class::Class;
use crate::limits::{MOST_ASKS, MOST_TREES, WAYS};
use cspf_addr::{Addr, Mask};
use cspf_db::Table;
use cspf_model::Request;
use cspf_search::Tree;
use std::alloc::{AllocError, Global};

/// A class of requests, the number of its recent requests, and its tree if one is grown. A class is
/// all requests with one tail-end and the same affinities.
#[derive(Drop)]
pub(crate) struct TreeRow {
    /// The generation of trees in which the row was set. A new generation begins each time that all
    /// trees are forgotten.
    pub(crate) generation: u64,
    /// The class of the row: all requests with one tail-end and the same affinities.
    pub(crate) class: Class,
    /// The number of requests of the row's class that are counted, lowered by one for each request
    /// of another class that came to this row. A class is all requests with one tail-end and the
    /// same affinities.
    pub(crate) asks: u32,
    /// The tree of the row's class, or `None` if no tree is grown yet. A class is all requests with
    /// one tail-end and the same affinities.
    pub(crate) tree: Option<Tree>,
}

/// The rows for classes of requests, all of them without a tree.
pub(crate) fn empty_rows(alloc: Global) -> Result<Vec<TreeRow>, AllocError>
    ensures many { IfOk result (λ rows. length rows.items ≡ MOST_TREES) }
    ensures empty { IfOk result (λ rows. All IsEmptyTreeRow rows.items) }
    ensures none { IfOk result (λ rows. tree_count rows.items ≡ 0) }
{
    let (to, none) = (Addr::new(0), Mask::new(0));
    let mut rows = Vec::with_capacity(alloc, MOST_TREES)?;
    for _ in 0..MOST_TREES {
        rows.push(TreeRow {
            generation: 0,
            class: Class {
                to,
                exclude_any: none,
                include_any: none,
                include_all: none,
            },
            asks: 0,
            tree: None,
        })?;
    }
    Ok(rows)
}

/// Grows a tree for the class of a request. The result is `None` if memory is refused, or if the
/// tail-end is unknown. A class is all requests with one tail-end and the same affinities.
fn grown(alloc: Global, table: &Table, request: &Request) -> Option<Tree>
    ensures { IfSome result (λ tree. (r : Asked)
        → ShareTrees request.now r → IsTree table.now r tree) }
{
    match Tree::grow(alloc, table, request) {
        Ok(tree) => tree,
        Err(_refused) => None,
    }
}

/// Whether a class gets a tree after `asks` of its requests are counted. `due` is the number of
/// requests that are needed, or `None` if no tree may be grown. A class is all requests with one
/// tail-end and the same affinities.
fn is_due(due: Option<u32>, asks: u32) -> bool
    ensures { due ≡ None → result ≡ false }
{
    match due {
        Some(least) => asks >= least,
        None => false,
    }
}

/// Counts one more request in the row of its class. If at least `due` requests are then counted and
/// the class has no tree yet, its tree is grown. If `due` is `None`, no tree is grown. A class is
/// all requests with one tail-end and the same affinities.
fn count(alloc: Global, table: &Table, request: &Request, due: Option<u32>, row: &mut TreeRow)
    requires class { HasClass request.now row.old.class }
    requires row { HasTreeOf table.now row.old.generation row.old }
    ensures row { HasTreeOf table.now row.old.generation row.new }
    ensures class { row.new.class ≡ row.old.class }
    ensures generation { row.new.generation ≡ row.old.generation }
    ensures undue { due ≡ None → row.new.tree ≡ row.old.tree }
{
    if row.asks < MOST_ASKS {
        row.asks += 1;
    }
    if is_due(due, row.asks) && row.tree.is_none() {
        row.tree = grown(alloc, table, request);
    }
}

/// Counts a request in a row, and returns whether the row then belongs to the request's class. A
/// class is all requests with one tail-end and the same affinities.
///
/// If the row belongs to another class, a request without hops lowers the row's count by one. If
/// the count is already 0, the row is given to the request's class instead. A request with hops
/// changes no row, because a tree helps only in the last leg of such a request. If `due` is `None`,
/// no tree is grown.
pub(crate) fn ask(
    alloc: Global,
    table: &Table,
    request: &Request,
    class: &Class,
    generation: u64,
    due: Option<u32>,
    row: &mut TreeRow,
) -> bool
    requires class { HasClass request.now class.now }
    requires past { row.old.generation ≤ generation }
    requires row { HasTreeOf table.now generation row.old }
    ensures past { row.new.generation ≤ generation }
    ensures row { HasTreeOf table.now generation row.new }
    ensures asked { result ≡ true → IsAskedOf request.now generation row.new }
    ensures undue { due ≡ None → row_count row.new ≤ row_count row.old }
{
    let is_mine = row.generation == generation && row.class == *class;
    if !request.hops.is_empty() {
        return is_mine;
    }
    if !is_mine && row.generation == generation && row.asks > 0 {
        row.asks -= 1;
        return false;
    }
    if !is_mine {
        *row = TreeRow {
            generation,
            class: *class,
            asks: 0,
            tree: None,
        };
    }
    count(alloc, table, request, due, row);
    true
}

/// The number of trees in the row of a class: 0 or 1.
pub(crate) fn trees_of(row: &TreeRow) -> usize
    ensures { result ≡ row_count row.now }
{
    match row.tree {
        Some(_) => 1,
        None => 0,
    }
}

/// The count of the row's class, or 0 if the row is of an earlier generation. The count is lowered
/// by requests of other classes, and the row is given to another class when it is 0. A class is all
/// requests with one tail-end and the same affinities. A new generation begins each time that all
/// trees are forgotten.
fn asks_left(row: &TreeRow, generation: u64) -> u32 {
    if row.generation == generation {
        row.asks
    } else {
        0
    }
}

/// The index of the row for a class, among the `WAYS` rows from the index `first` on. If the class
/// has a row of this generation there, the result is the index of that row. Otherwise it is the
/// index of the row with the lowest count, as `asks_left` gives it. A class is all requests with
/// one tail-end and the same affinities. A new generation begins each time that all trees are
/// forgotten.
pub(crate) fn find(rows: &[TreeRow], first: usize, class: &Class, generation: u64) -> usize
    requires { first + WAYS ≤ length rows.now }
    ensures { result < length rows.now }
{
    let mut found = first;
    for at in first..first + WAYS {
        if rows[at].generation == generation && rows[at].class == *class {
            return at;
        }
        if asks_left(&rows[at], generation) < asks_left(&rows[found], generation) {
            found = at;
        }
    }
    found
}
