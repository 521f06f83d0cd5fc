//! Tests runs over rows, workers and clients. The tests cover scripts (streams of rows with
//! changes, `end` rows and requests), runs over a journal, and runs that publish batches while they
//! answer requests. They also cover the limits of a run, and the order in which workers answer. In
//! some tests reads, writes or allocations fail, and the test checks what was written before.
#![tactic(auto)]

#[cfg(test)]
mod tests;
