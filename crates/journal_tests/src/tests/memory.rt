//! Tests readers and audits while memory is refused.

mod audits;
mod readers;
