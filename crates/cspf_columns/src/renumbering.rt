//! How the indexes of routers change when routers are added to the list of routers or removed from
//! it.
ghost use Rattle.std.specs.Prelude.{◌≡◌, ℕ, ◌+◌, ◌<◌, ◌≤◌, true, false, [], ◌∷◌, ◌++◌, cond, All, Contains, length, slice_index, slice_index_or, vec_len, nat_eq};
ghost use Rattle.std.specs.Vec.{vec_capacity};
ghost use Rattle.std.specs.List.{list_any};
ghost use Rattle.cspf_model.specs.Lemmas.CountedEnds.{any_to, is_end_of};
ghost use Rattle.cspf_model.specs.Lemmas.LinkRows.{AreByKey};
ghost use Rattle.cspf_columns.specs.Rows.{AreRising, IsEndColumn, ArePlacesIn, AreKeptEnds};

use crate::limits::ROOM_FOR_ROUTERS;
use crate::routers::index_near;
use crate::rows::begins;
use cspf_addr::Addr;
use cspf_model::Link;

/// For each router of `routers`, appends to `places` the router's index in `others`. `others` has
/// all of these routers. If both lists are sorted, most indexes are found without a binary search.
pub(crate) fn list_places(places: &mut Vec<u16>, routers: &[Addr], others: &[Addr])
    requires rising { AreRising others.now }
    requires few { length others.now ≤ ROOM_FOR_ROUTERS }
    requires among { All (Contains others.now) routers.now }
    requires room { length routers.now ≤ vec_capacity places.old }
    ensures each { ArePlacesIn others.now routers.now places.new.items }
    ensures len { vec_len places.new ≡ length routers.now }
    ensures capacity { vec_capacity places.old ≤ vec_capacity places.new }
{
    places.clear();
    let mut near = 0;
    for router in routers {
        let place = index_near(others, near, *router);
        places.push_reserved(place);
        near = usize::from(place) + 1;
    }
}

/// Marks each router at which some row (a link) ends. The column `ends` has the indexes of these
/// routers.
fn mark_ends(marked: &mut [bool], ends: &[u16])
    requires within { All (λ end. end < length marked.old) ends.now }
    requires none { All (λ mark. mark ≡ false) marked.old }
    ensures marked { (at : ℕ) → at < length marked.old
        → slice_index_or marked.new at false ≡ list_any (λ end. nat_eq end at) ends.now }
{
    for end in ends {
        marked[*end as usize] = true;
    }
}

/// Whether a row (a link) begins or ends at the router. `arrives` says whether a row ends at the
/// router.
fn is_end(rows: &[Link], router: Addr, arrives: bool) -> bool
    requires by_key { AreByKey rows.now }
    requires known { arrives ≡ any_to rows.now router }
    ensures { result ≡ is_end_of rows.now router }
{
    arrives || begins(rows, router)
}

/// Appends the length of `kept` to `places`. If `stays` is true, then appends the router to `kept`.
/// The appended length is the router's index there.
fn keep_one(kept: &mut Vec<Addr>, places: &mut Vec<u16>, router: Addr, stays: bool)
    requires few { vec_len kept.old < ROOM_FOR_ROUTERS }
    requires room { vec_len kept.old < vec_capacity kept.old }
    requires room_for_places { vec_len places.old < vec_capacity places.old }
    ensures kept { kept.new.items ≡ kept.old.items ++ cond stays (router ∷ []) [] }
    ensures placed { places.new.items ≡ places.old.items ++ length kept.old.items ∷ [] }
    ensures len { vec_len places.new ≡ vec_len places.old + 1 }
    ensures longer { vec_len kept.new ≤ vec_len kept.old + 1 }
    ensures capacity { vec_capacity kept.old ≤ vec_capacity kept.new }
    ensures capacity_of_places { vec_capacity places.old ≤ vec_capacity places.new }
{
    places.push_reserved(kept.len() as u16);
    if stays {
        kept.push_reserved(router);
    }
}

/// Copies to `kept` the routers at which rows (links) begin or end. Lists in `places` an index for
/// each router of `routers`: for each kept router, its index in `kept`.
pub(crate) fn keep_ends(
    kept: &mut Vec<Addr>,
    places: &mut Vec<u16>,
    routers: &[Addr],
    ends: &[u16],
    rows: &[Link],
)
    requires by_key { AreByKey rows.now }
    requires rising { AreRising routers.now }
    requires few { length routers.now ≤ ROOM_FOR_ROUTERS }
    requires column { IsEndColumn rows.now routers.now ends.now }
    requires room { ROOM_FOR_ROUTERS ≤ vec_capacity kept.old }
    requires room_for_places { ROOM_FOR_ROUTERS ≤ vec_capacity places.old }
    ensures { AreKeptEnds rows.now routers.now kept.old places.old kept.new places.new }
{
    let mut marked = [false; ROOM_FOR_ROUTERS];
    mark_ends(&mut marked, ends);
    kept.clear();
    places.clear();
    for (at, router) in routers.iter().enumerate() {
        let stays = is_end(rows, *router, marked[at]);
        keep_one(kept, places, *router, stays);
    }
}
