use crate::Route;

/// The answer to a request.
#[derive(Debug, Drop)]
pub enum Outcome {
    /// The route that comes first in the order of walks.
    Route(Route),
    /// No walk of admissible links is a route.
    NoRoute,
    /// The database doesn't have the head-end.
    UnknownFrom,
    /// The database doesn't have the tail-end.
    UnknownTo,
}
