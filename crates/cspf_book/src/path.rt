//! The path of a placement, which is what a placement keeps of its route.

ghost use Rattle.std.specs.Prelude.{◌≡◌, ◌+◌, ◌<◌, ◌≤◌, ◌↔◌, map, IfOk, IsTrue};
ghost use Rattle.cspf_book.specs.Placements.{passed_of};
ghost use Rattle.cspf_book.specs.PathsFrom.{path_from, LeadFromTo};

use cspf_addr::Addr;
use cspf_model::{Link, Route};
use std::alloc::{AllocError, Global};
use std::marker::Model;

/// What a placement keeps of a link on its route, in 12 bytes. The router and the interface are the
/// link's key.
#[derive(Clone, Copy, Debug, PartialEq, Eq)]
pub struct Passed {
    /// The router at which the link begins.
    pub from: Addr,
    /// The address of the link's interface at that router.
    pub local: Addr,
    /// The router that the link leads to.
    pub to: Addr,
}

/// The links of a route from the head-end on, without their attributes.
#[derive(Debug, Drop)]
pub struct Path {
    links: Vec<Passed>,
}

impl Model for Path {
    ghost use Rattle.std.specs.Prelude.{List};
    ghost use Rattle.std.specs.Coded.{coded_list};
    ghost use Rattle.cspf_book.specs.declared.path.Passed.{Passed};
    ghost use Rattle.cspf_book.specs.contracts.path.Passed.{the_row};

    ghost Value = { List Passed };

    ghost coded = { coded_list the_row.coded };

    ghost view = { λ a. a.links.items };
}

impl Path {
    /// The path of a route.
    pub(crate) fn of(alloc: Global, route: &Route) -> Result<Path, AllocError>
        ensures { IfOk result (λ path. path ≡ map passed_of route.now) }
    {
        let links = route.links().iter().map(kept_of).collect(alloc)?;
        Ok(Path { links })
    }

    /// The path that begins at the router `from`. Each step is a link: the address of its interface,
    /// and the router that it leads to, where the next link begins.
    pub fn along(alloc: Global, from: Addr, steps: &[(Addr, Addr)]) -> Result<Path, AllocError>
        ensures { IfOk result (λ path. path ≡ path_from from steps.now) }
    {
        let mut links = Vec::with_capacity(alloc, steps.len())?;
        let mut router = from;
        for step in steps {
            links.push(Passed {
                from: router,
                local: step.0,
                to: step.1,
            })?;
            router = step.1;
        }
        Ok(Path { links })
    }

    /// Whether the path leads from one router to another: its first link begins at `from`, each
    /// other link begins where the link before it ends, and the last link ends at `to`. A path
    /// without links leads from each router to itself.
    pub fn leads(&self, from: Addr, to: Addr) -> bool
        ensures { IsTrue result ↔ LeadFromTo from to self.now }
    {
        let mut router = from;
        for link in &self.links {
            if link.from != router {
                return false;
            }
            router = link.to;
        }
        router == to
    }

    /// The links in order, from the head-end on.
    pub fn links(&self) -> &[Passed]
        ensures { result.now ≡ self.now }
    {
        self.links.as_slice()
    }
}

/// What a placement keeps of this link.
fn kept_of(link: &Link) -> Passed
    ensures { result ≡ passed_of link.now }
{
    Passed {
        from: link.from,
        local: link.local,
        to: link.to,
    }
}
