//! The greatest numbers of bytes of a route's object and of a reply line.
use cspf_model::MOST_ROUTE_LINKS;

/// The greatest number of bytes of a route's object: 4 for the header, and 8 for each link.
pub const MOST_OBJECT_BYTES: usize = 4 + 8 * MOST_ROUTE_LINKS;

/// The greatest number of bytes of a reply line: 87 before the object, two hexadecimal digits for
/// each byte of the object, and the line feed.
pub const MOST_LINE_BYTES: usize = 87 + 2 * MOST_OBJECT_BYTES + 1;
