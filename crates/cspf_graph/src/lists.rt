ghost use Rattle.std.specs.Prelude.{◌≤◌, ℕ, List, length, nat_eq};
ghost use Rattle.std.specs.List.{AllByRecursion, IsDistinct};
ghost use Rattle.cspf_model.specs.Database.{AreLinksOf, IsRouterOf};
ghost use Rattle.cspf_db.specs.Index.{links_of};
ghost use Rattle.cspf_graph.specs.Lists.{AreListed, IsIndexOf};

use cspf_db::Table;
use cspf_model::{MOST_ROUTERS, counted_routers};

/// Law: for each table, `router_list` lists exactly the routers of the table's database, and
/// `links_of` lists exactly its links. The call changes nothing.
pub fn listed(table: &Table)
    ensures listed { AreListed table.now }
    ensures links { AreLinksOf table.now (links_of table.now) }
    ensures known { (router place : ℕ) → IsIndexOf table.now router place
        → IsRouterOf table.now router }
    ensures few { (routers : List ℕ) → IsDistinct nat_eq routers
        → AllByRecursion (IsRouterOf table.now) routers → length routers ≤ MOST_ROUTERS }
{
    counted_routers();
    let _links = table.links();
    let _routers = table.routers();
}
