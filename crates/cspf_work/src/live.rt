use cspf_publish::{Answer, ApplyError, Asker, Publisher};

/// The workers' answers, and the publisher that applied batches meanwhile. This value isn't `Drop`,
/// since the publisher has to be closed.
pub struct Live<W> {
    /// The publisher.
    pub publisher: Publisher<W>,
    /// The answers, in the order of the requests.
    pub list: Vec<Answer>,
    /// For each worker, the indexes of the requests that it answered, in the order in which it
    /// answered them.
    pub drawn: Vec<Vec<usize>>,
    /// The askers (the objects that compute the workers' answers), in the order of the caller's
    /// list.
    pub askers: Vec<Asker>,
    /// The number of batches that were applied.
    pub applied: u32,
    /// Why the next batch was refused, if one was refused.
    pub fault: Option<ApplyError>,
}
