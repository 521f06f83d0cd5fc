use cspf_model::Outcome;

/// The answer to a request.
#[derive(Debug, Drop)]
pub struct Answer {
    /// The request's id.
    pub id: u64,
    /// The version of the database: the number of its batches. The outcome is the best answer in
    /// that database.
    pub version: u32,
    /// The outcome.
    pub outcome: Outcome,
}
