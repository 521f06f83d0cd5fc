//! The runs of the program, from the bytes that they read to the bytes that they write. One kind of
//! run reads a journal and requests, and writes the lines that answer them. Another kind reads
//! updates and requests, and publishes the updates while it answers the requests.
//!
//! `batch` publishes the batches of a journal and then answers requests. `specs/BatchRun.antt`
//! defines the lines of such a run. `specs/BatchLaws.antt` says when these lines are also the lines
//! of a run over one stream of rows. `live` publishes batches while workers answer requests, and
//! writes each batch to the journal first. `specs/LiveRun.antt` defines the lines and the journal
//! of a live run. `serving` publishes updates as they come in, while clients ask.
//! `specs/Updates.antt` defines the answers to updates, and `specs/ServedRun.antt` defines the
//! result of a whole run. A crate above may publish by a state of its own (`Publishing`):
//! `serve_seats` is the run of `serve` with such a state, and `specs/PublishingRuns.antt` defines
//! its result. `Counted` is a publisher for such a state, with the steps of its journal. `streams`
//! has the code that these three modules share, and `specs/RunFaults.antt` defines the errors that
//! end a run.
//!
//! The run over one stream of rows is in `cspf_solve`, the workers are in `cspf_work`, and audit
//! and snapshot are in `cspf_judge`. This crate re-exports the names of these crates.
#![tactic(auto)]

mod batch;
mod judging;
mod line;
mod live;
mod serving;
mod streams;

pub use batch::{lines_of_a_script, run_batch, run_batch_with};
pub use cspf_client::{Client, ClientError, EndOfRequests, Reopens, Replies, ServedClient};
pub use cspf_judge::{Audit, AuditError, AuditFault, audit};
pub use cspf_publish::{MOST_ASKERS, MOST_TREE_MEGABYTES, TREE_MEGABYTES, trees_in};
pub use cspf_questions::{
    AnswersBoth, AnswersExcept, AnswersNone, AnswersPairs, Kinds, QuestionKinds,
};
pub use cspf_solve::{
    RunOptions, SolveError, Solver, Summary, rows_have_one_reply, run_solve, run_solve_with,
    runs_go_on_row_by_row, stops_at_a_prefix,
};
pub use cspf_stream::{BatchRefusal, StreamError};
pub use cspf_work::{
    Answers, Drawer, Gate, Live, MOST_REQUESTS, NoGate, ServeError, answer_all, answer_latest,
    run_live,
};
pub use judging::{run_audit, run_audit_with_questions, run_snapshot};
pub use live::{run_live_rows, run_live_rows_with};
pub use serving::{
    Counted, Publishing, Seats, Served, ServedError, ServedOptions, no_reply_is_behind, open_seats,
    run_serve, run_serve_with_questions, seats_with_one_session, serve_seats,
    served_replies_are_fresh,
};
pub use streams::RunError;
