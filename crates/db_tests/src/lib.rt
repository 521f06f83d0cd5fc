//! Tests of links, requests and the table: the table's rows (its links), its routers, the reverses
//! of links, the owners of prefixes, and the marks of routers without transit. Batches come in any
//! order. Some of them fill the table, and some are refused.
#![tactic(auto)]

#[cfg(test)]
mod tests;
