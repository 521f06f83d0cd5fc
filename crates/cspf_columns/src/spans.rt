//! Spans of routers. A router's span is the range of the rows (links) that begin at the router, and
//! the lowest and the highest local address of these rows.
ghost use Rattle.std.specs.Prelude.{◌≡◌, ℕ, All, ◌+◌, ◌-◌, ◌<◌, ◌≤◌, true, filter, length, nat_eq, slice_index_or, slice_range, vec_len};
ghost use Rattle.std.specs.Vec.{vec_capacity};
ghost use Rattle.std.specs.List.Sorted.{IsNonDecreasingBy};
ghost use Rattle.cspf_model.specs.declared.link.Link.{Link as Linked};
ghost use Rattle.cspf_model.specs.Lemmas.LinkRows.{AreByKey};
ghost use Rattle.cspf_columns.specs.Rows.{AreSpansOf, IsSpanOf};
ghost use Rattle.cspf_model.specs.declared.limits.TheConstants.{MOST_LINKS, MOST_ROUTERS};

use crate::rows::span;
use cspf_addr::Addr;
use cspf_model::Link;

/// The range of the rows (links) that begin at a router, and the lowest and the highest local
/// address of these rows. If there are no such rows, `lowest` is above `highest`.
#[derive(Clone, Copy, Debug)]
pub struct Span {
    pub first: u16,
    pub end: u16,
    pub lowest: Addr,
    pub highest: Addr,
}

/// The span of a router at which no row (a link) begins. The range is empty, and `lowest` is above
/// `highest`.
fn no_span() -> Span {
    Span {
        first: 0,
        end: 0,
        lowest: Addr::new(u32::MAX),
        highest: Addr::new(0),
    }
}

/// The index of the first row (a link), from index `first` on, that doesn't begin at the router. If
/// all of these rows begin at the router, the result is the number of rows.
fn skip(rows: &[Link], first: usize, router: Addr) -> usize
    requires { first ≤ length rows.now }
    ensures order { first ≤ result }
    ensures bound { result ≤ length rows.now }
    ensures run { (k : ℕ) (d : Linked) → first ≤ k → k < result
        → (slice_index_or rows.now k d).from ≡ router }
{
    let mut at = first;
    while at < rows.len() && rows[at].from == router {
        at += 1;
    }
    at
}

/// Whether the row (a link) at the index `at - 1` begins at a lower router than `router`. If `at`
/// is 0, the result is true.
fn is_behind(rows: &[Link], at: usize, router: Addr) -> bool
    requires { at ≤ length rows.now }
    ensures { result ≡ true → 0 < at → (d : Linked)
        → (slice_index_or rows.now (at - 1) d).from < router }
{
    at == 0 || rows[at - 1].from < router
}

/// Whether the row (a link) at the index `at` begins at a higher router than `router`. If there is
/// no row at `at`, the result is true.
fn is_before(rows: &[Link], at: usize, router: Addr) -> bool
    requires { at ≤ length rows.now }
    ensures { result ≡ true → at < length rows.now → (d : Linked)
        → router < (slice_index_or rows.now at d).from }
{
    at == rows.len() || router < rows[at].from
}

/// Whether all rows (links) of a range begin at the router. The call reads only the first and the
/// last row of the range, because the rows are sorted.
fn is_run(rows: &[Link], first: usize, end: usize, router: Addr) -> bool
    requires by_key { AreByKey rows.now }
    requires order { first ≤ end }
    requires bound { end ≤ length rows.now }
    ensures { result ≡ true → (k : ℕ) (d : Linked) → first ≤ k → k < end
        → (slice_index_or rows.now k d).from ≡ router }
{
    first == end || (rows[first].from == router && rows[end - 1].from == router)
}

/// Whether the range from `first` to `end` (exclusive) has exactly the rows (links) that begin at
/// the router.
fn is_span(rows: &[Link], first: usize, end: usize, router: Addr) -> bool
    requires by_key { AreByKey rows.now }
    requires order { first ≤ end }
    ensures bound { result ≡ true → end ≤ length rows.now }
    ensures rows { result ≡ true → slice_range rows.now first end
        ≡ filter (λ l. nat_eq l.from router) rows.now }
{
    if end > rows.len() || !is_run(rows, first, end, router) {
        return false;
    }
    is_behind(rows, first, router) && is_before(rows, end, router)
}

/// The range of the rows (links) that begin at the router. If the range doesn't begin at the index
/// `at`, the call searches for it.
fn span_from(rows: &[Link], at: usize, router: Addr) -> (usize, usize)
    requires by_key { AreByKey rows.now }
    requires bound { at ≤ length rows.now }
    ensures order { result.0 ≤ result.1 }
    ensures bound { result.1 ≤ length rows.now }
    ensures rows { slice_range rows.now result.0 result.1
        ≡ filter (λ l. nat_eq l.from router) rows.now }
{
    let end = skip(rows, at, router);
    if is_behind(rows, at, router) && is_before(rows, end, router) {
        (at, end)
    } else {
        span(rows, router)
    }
}

/// The range of the rows (links) that begin at the router. The caller guesses that the range begins
/// at the index `at` and has `count` rows. If the guess is right, the call reads only a few rows.
fn span_near(rows: &[Link], at: usize, count: u16, router: Addr) -> (usize, usize)
    requires by_key { AreByKey rows.now }
    requires most { length rows.now ≤ MOST_LINKS }
    requires bound { at ≤ length rows.now }
    ensures order { result.0 ≤ result.1 }
    ensures bound { result.1 ≤ length rows.now }
    ensures rows { slice_range rows.now result.0 result.1
        ≡ filter (λ l. nat_eq l.from router) rows.now }
{
    let end = at + usize::from(count);
    if is_span(rows, at, end, router) {
        (at, end)
    } else {
        span_from(rows, at, router)
    }
}

/// The span of a range of rows (links): the range, and the lowest and the highest local address of
/// its rows. The rows of the range are in order of their local addresses.
fn rising_between(rows: &[Link], first: usize, end: usize) -> Span
    requires most { length rows.now ≤ MOST_LINKS }
    requires order { first ≤ end }
    requires bound { end ≤ length rows.now }
    requires rising { IsNonDecreasingBy (λ l. l.local) (slice_range rows.now first end) }
    ensures first { result.first ≡ first }
    ensures end { result.end ≡ end }
    ensures lowest { All (λ l. result.lowest ≤ l.local) (slice_range rows.now first end) }
    ensures highest { All (λ l. l.local ≤ result.highest) (slice_range rows.now first end) }
{
    let mut span = no_span();
    span.first = first as u16;
    span.end = end as u16;
    if first < end {
        span.lowest = rows[first].local;
        span.highest = rows[end - 1].local;
    }
    span
}

/// The span of the router. The caller guesses that the range of the router's rows (links) begins at
/// the index `at` and has `count` rows.
fn locate(rows: &[Link], at: usize, count: u16, router: Addr) -> Span
    requires by_key { AreByKey rows.now }
    requires most { length rows.now ≤ MOST_LINKS }
    requires bound { at ≤ length rows.now }
    ensures { IsSpanOf rows.now router result }
{
    let (first, end) = span_near(rows, at, count, router);
    rising_between(rows, first, end)
}

/// Makes the list `count` items long. The values of these items don't matter.
fn resize(spans: &mut Vec<Span>, count: usize)
    requires few { count ≤ MOST_ROUTERS }
    requires room { MOST_ROUTERS ≤ vec_capacity spans.old }
    ensures len { vec_len spans.new ≡ count }
    ensures capacity { vec_capacity spans.old ≤ vec_capacity spans.new }
{
    spans.truncate(count);
    while spans.len() < count {
        spans.push_reserved(no_span());
    }
}

/// Lists the span of each router. If a router has as many rows (links) as the old span at the same
/// index, the call reads only a few of these rows. If the routers are in increasing order, the call
/// reads the rows of the other routers once.
pub(crate) fn list_spans(spans: &mut Vec<Span>, routers: &[Addr], rows: &[Link])
    requires by_key { AreByKey rows.now }
    requires most { length rows.now ≤ MOST_LINKS }
    requires few { length routers.now ≤ MOST_ROUTERS }
    requires room { MOST_ROUTERS ≤ vec_capacity spans.old }
    ensures each { AreSpansOf rows.now routers.now spans.new.items }
    ensures room { MOST_ROUTERS ≤ vec_capacity spans.new }
{
    resize(spans, routers.len());
    let mut at = 0;
    for (index, router) in routers.iter().enumerate() {
        let old = &spans[index];
        let count = old.end.saturating_sub(old.first);
        let span = locate(rows, at, count, *router);
        at = usize::from(span.end);
        spans[index] = span;
    }
}
