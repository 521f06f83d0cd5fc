ghost use Rattle.cspf_search.specs.Trees.{TreesAreShared};

/// Law: a tree depends only on the database, the tail-end and the affinities. It serves each
/// request with this tail-end and these affinities. The request's id, head-end, setup priority,
/// bandwidth and hops don't matter.
pub fn trees_are_shared()
    ensures { TreesAreShared }
{}
