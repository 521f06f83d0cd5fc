//! A book of placements over a traffic engineering database, used by one thread. A placement holds
//! its bandwidth on each link of its route.
//!
//! `specs/Placements.antt` defines how much bandwidth is counted on a link. `specs/Effective.antt`
//! defines the effective database: the base, with the bandwidth that the placements leave on its
//! links. `specs/BookState.antt` defines how placing a request changes a book. `specs/Leading.antt`
//! defines the batch that each change of a book makes for its taker. `specs/Restoring.antt` defines
//! how a placement is added with the route that it already has.
//! `specs/OverLinks.antt` and `specs/LostRoutes.antt` define how changes of the base affect
//! placements. `specs/Laws.antt` has the laws that follow from these definitions.
#![tactic(auto)]

mod after;
mod book;
mod changed;
mod counting;
mod counts;
mod effective_links;
mod error;
mod giving;
mod laws;
mod leading;
mod limits;
mod link_figures;
mod lost;
mod moves;
mod offer;
mod over;
mod path;
mod placement;
mod restoring;
mod router_bits;
mod taker;
mod touched;
mod versions;

pub use book::Book;
pub use error::{AbsorbError, PlaceError, ReleaseError, RestoreError, VersionError};
pub use laws::{
    changes_of_effective_databases, compact_is_the_book, covered_links, effective_databases,
    figures_never_rise, one_lost_list,
};
pub use limits::{MOST_PLACED_LINKS, MOST_PLACEMENTS, MOST_ROUTES_LINKS};
pub use link_figures::LinkFigures;
pub use over::Over;
pub use path::{Passed, Path};
pub use placement::Placement;
pub use taker::{Taker, TakesAll};
