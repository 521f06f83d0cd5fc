//! Tests runs over rows, and workers, while memory is refused.

mod runs;
mod workers;
