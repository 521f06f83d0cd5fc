//! Tests a publisher and its askers (the objects that compute the answers to requests). The tests
//! cover published and refused batches, the journal and its faults, the versions that askers learn
//! of and their answers on other threads, and refused memory.
#![tactic(auto)]

#[cfg(test)]
mod tests;
