/// A gate: callbacks before and after each request of a worker. All workers share these callbacks.
pub trait Gate {
    /// Is called after the worker has drawn the index of this request from the counter, and before
    /// the answer is computed. Indexes count from 0.
    fn reached(&self, worker: usize, index: usize);

    /// Is called after the worker has computed the answer to the request with this index.
    fn answered(&self, worker: usize, index: usize);
}

/// A gate (callbacks before and after each request of a worker) that does nothing.
#[derive(Clone, Copy, Debug)]
pub struct NoGate;

impl Gate for NoGate {
    fn reached(&self, _worker: usize, _index: usize) {}

    fn answered(&self, _worker: usize, _index: usize) {}
}
