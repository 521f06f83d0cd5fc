use cspf_publish::{Answer, Asker};

/// The workers' answers.
#[derive(Drop)]
pub struct Answers {
    /// The answers, in the order of the requests.
    pub list: Vec<Answer>,
    /// For each worker, the indexes of the requests that it answered, in the order in which it
    /// answered them.
    pub drawn: Vec<Vec<usize>>,
    /// The askers (the objects that compute the workers' answers), in the order of the caller's
    /// list.
    pub askers: Vec<Asker>,
}
