ghost use Rattle.std.specs.Prelude.{◌<◌};

use crate::path::Path;
use cspf_model::Request;

/// A request that is placed. It holds its bandwidth on each link of its route.
#[derive(Debug, Drop)]
pub struct Placement {
    /// The request. Its id is also the id of the placement.
    pub request: Request,
    /// The holding priority, from 0 (the most important) to 7 (RFC 3209 4.7.1).
    pub hold: u8,
    /// The links of the route. They are stored without the attributes that they had when the request
    /// was placed.
    pub route: Path,
    ghost priority: { hold < 8 },
}
