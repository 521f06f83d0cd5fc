//! When trees are grown: as a budget pays for them, at a given request, or never. And the growth that
//! suits a list of requests.

ghost use Rattle.cspf_trees.specs.Trees.{AreTreesOf};

use super::{FOUR, ONE, SQUARE, THREE, TWO, request, table};
use cspf_db::Table;
use cspf_model::Request;
use cspf_trees::{Growth, MOST_TREES, Trees, growth_for};
use std::alloc::Global;
use std::test::Fail;

// The number of trees after the request was asked so many times more.
fn count_after(
    alloc: Global,
    table: &Table,
    request: &Request,
    times: u32,
    trees: &mut Trees,
) -> Result<usize, Fail>
    requires { AreTreesOf table.now trees.old }
    ensures { AreTreesOf table.now trees.new }
{
    for _ask in 0..times {
        trees.best(alloc, table, request)?;
    }
    Ok(trees.count())
}

// A tree costs 24 searches, each request adds 3 hundredths of a search, and each walk that answers a
// request adds 90 hundredths. So the first tree is grown at the 800th request. The walks of this
// request and of 25 more pay for the second tree, which is grown at the sixth request of its class.
#[test]
fn trees_that_are_paid_for(rt: HostRuntime) -> Result<(), Fail> {
    let alloc = rt.alloc();
    let table = table(alloc, SQUARE)?;
    let often = request((ONE, FOUR), 0, (0, 0, 0), b"")?;
    let later = request((ONE, THREE), 0, (0, 0, 0), b"")?;
    let mut trees = Trees::new(alloc, MOST_TREES);
    let before = count_after(alloc, &table, &often, 799, &mut trees)?;
    let first = count_after(alloc, &table, &often, 1, &mut trees)?;
    let paid = count_after(alloc, &table, &often, 25, &mut trees)?;
    let fifth = count_after(alloc, &table, &later, 5, &mut trees)?;
    let sixth = count_after(alloc, &table, &later, 1, &mut trees)?;
    let found = (before, first, paid, fifth, sixth);
    assert!(rt; found == (0, 1, 1, 1, 2), "{found:?}");
    Ok(())
}

// A tree that is forgotten was paid for. Its only walk has saved 100 hundredths of a search, so the
// next tree is grown at the 767th request after it.
#[test]
fn forgotten_trees_stay_paid_for(rt: HostRuntime) -> Result<(), Fail> {
    let alloc = rt.alloc();
    let table = table(alloc, SQUARE)?;
    let asked = request((ONE, FOUR), 0, (0, 0, 0), b"")?;
    let mut trees = Trees::new(alloc, MOST_TREES);
    let first = count_after(alloc, &table, &asked, 800, &mut trees)?;
    trees.clear();
    let before = count_after(alloc, &table, &asked, 766, &mut trees)?;
    let second = count_after(alloc, &table, &asked, 1, &mut trees)?;
    assert!(rt;
        (first, before, second) == (1, 0, 1),
        "{first} {before} {second}"
    );
    Ok(())
}

// Trees that are grown at the first request, and trees that are never grown.
#[test]
fn trees_at_once_or_never(rt: HostRuntime) -> Result<(), Fail> {
    let alloc = rt.alloc();
    let table = table(alloc, SQUARE)?;
    let asked = request((ONE, FOUR), 0, (0, 0, 0), b"")?;
    let mut at_once = Trees::from_ask(alloc, MOST_TREES, 1);
    let first = count_after(alloc, &table, &asked, 1, &mut at_once)?;
    let mut never = Trees::with_growth(alloc, MOST_TREES, Growth::Never);
    let none = count_after(alloc, &table, &asked, 2_000, &mut never)?;
    assert!(rt; (first, none) == (1, 0), "{first} and {none}");
    Ok(())
}

// The growth for a list that has the request so many times.
fn growth_of(alloc: Global, asked: &Request, times: u32, askers: usize) -> Result<Growth, Fail> {
    let mut requests = Vec::new(alloc);
    for _ in 0..times {
        requests.push(*asked)?;
    }
    Ok(growth_for(alloc, &requests, askers))
}

// A tree costs 24 searches. If it is grown at the second request, the walks of 27 requests save more
// than that, and the walks of 26 requests save less.
#[test]
fn growth_for_one_class(rt: HostRuntime) -> Result<(), Fail> {
    let alloc = rt.alloc();
    let asked = request((ONE, FOUR), 0, (0, 0, 0), b"")?;
    assert!(rt; growth_of(alloc, &asked, 27, 1)? == Growth::Never);
    assert!(rt; growth_of(alloc, &asked, 28, 1)? == Growth::FromAsk(2));
    assert!(rt; growth_of(alloc, &asked, 55, 2)? == Growth::Never);
    assert!(rt; growth_of(alloc, &asked, 56, 2)? == Growth::FromAsk(2));
    assert!(rt; growth_of(alloc, &asked, 0, 1)? == Growth::Never);
    let loose = request((ONE, FOUR), 0, (0, 0, 0), b"2.2.2.2/32l")?;
    assert!(rt; growth_of(alloc, &loose, 28, 1)? == Growth::FromAsk(2));
    let strict = request((ONE, FOUR), 0, (0, 0, 0), b"2.2.2.2/32s")?;
    assert!(rt; growth_of(alloc, &strict, 1_000, 1)? == Growth::Never);
    Ok(())
}

// One class has 1,000 requests, and each of 32 other classes has three. If trees were grown at the
// second request, the trees of the 32 classes would cost more than all trees save.
#[test]
fn growth_for_unequal_classes(rt: HostRuntime) -> Result<(), Fail> {
    let alloc = rt.alloc();
    let mut requests = Vec::new(alloc);
    for _ in 0..1_000 {
        requests.push(request((ONE, FOUR), 0, (0, 0, 0), b"")?)?;
    }
    let mut group = 1u32;
    for _ in 0..96 {
        requests.push(request((ONE, TWO), 0, (group, 0, 0), b"")?)?;
        group = group.wrapping_mul(2).max(1);
    }
    let found = growth_for(alloc, &requests, 1);
    assert!(rt; found == Growth::FromAsk(4), "{found:?}");
    Ok(())
}
