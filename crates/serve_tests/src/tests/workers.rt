//! Tests the answers of workers, which worker answers a request, and the order in which workers
//! learn of batches and answer requests. Also tests the calls of a gate (callbacks before and after
//! each request). Workers are tested alone and within the runs over rows.

mod alone;
mod counts;
mod entries;
pub(super) mod fixtures;
mod gates;
mod live;
mod orders;
