//! Tests requests: addresses, prefixes, hops, masks and numbers, and the links that a request may
//! use. Also tests the routers at which a request's legs end, route objects, reply lines, and
//! placements in a book.
#![tactic(auto)]

#[cfg(test)]
mod tests;
