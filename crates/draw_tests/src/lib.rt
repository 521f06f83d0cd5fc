//! Tests how workers draw numbers from a counter: two workers in turn, and workers in several
//! threads. A draw reads the counter and adds 1 to it in one step.
#![tactic(auto)]

#[cfg(test)]
mod tests;
