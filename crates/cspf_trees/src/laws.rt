ghost use Rattle.cspf_trees.specs.Laws.{TreesOutlastBandwidth};

use cspf_db::shapes_tell_routers;

/// Law: a tree of a database is also a tree of each database that differs from it only in
/// unreserved bandwidths.
pub fn trees_outlast_bandwidth()
    ensures { TreesOutlastBandwidth }
{
    // Law: databases that differ only in unreserved bandwidths have the same list of routers.
    shapes_tell_routers();
}
