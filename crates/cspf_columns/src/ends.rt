//! The column of ends: for each row (a link), the index of the router at which the link ends.
ghost use Rattle.std.specs.Prelude.{◌≡◌, ◌<◌, ◌≤◌, All, length, map, slice_index};
ghost use Rattle.std.specs.Vec.{vec_capacity};

/// Adapts the column of ends to a new list of routers. Each item is a router's index in the old
/// list, and is replaced by the router's index in the new list. `places` maps old indexes to new
/// indexes.
pub(crate) fn move_ends(ends: &mut Vec<u16>, places: &[u16])
    requires { All (λ end. end < length places.now) ends.old.items }
    ensures moved { ends.new.items ≡ map (λ end. slice_index places.now end) ends.old.items }
    ensures capacity { vec_capacity ends.old ≤ vec_capacity ends.new }
{
    for end in ends.iter_mut() {
        *end = places[*end as usize];
    }
}
