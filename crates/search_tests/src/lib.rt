//! Tests of both searches, of the search with trees, and of the search from both ends. Some tests
//! use small networks with known answers: ties, affinities, hops, reverses and routers without
//! transit. Other tests draw networks at random, and check that all searches agree.
#![tactic(auto)]

#[cfg(test)]
mod tests;
