use crate::ServeError;
use cspf_jobs::Drawer;
use cspf_publish::{Answer, Asker};

/// An answer, and the index of its request.
#[derive(Drop)]
pub(crate) struct Reply {
    pub(crate) index: usize,
    pub(crate) answer: Answer,
}

/// A worker. It draws the indexes of requests from a counter by `drawer`, and computes the answers
/// by `asker`. `done` has the answers in the order in which the worker computed them. `fault` is
/// the fault that stopped the worker, if there was one.
#[derive(Drop)]
pub(crate) struct Worker<'a> {
    pub(crate) asker: Asker,
    pub(crate) drawer: Drawer<'a>,
    pub(crate) done: Vec<Reply>,
    pub(crate) fault: Option<ServeError>,
}

/// The results of workers: all askers (the objects that computed the answers), and the answers of
/// each worker. If workers had faults, `fault` is the fault of the first of these workers.
#[derive(Drop)]
pub(crate) struct Results {
    pub(crate) askers: Vec<Asker>,
    pub(crate) lists: Vec<Vec<Reply>>,
    pub(crate) fault: Option<ServeError>,
}
