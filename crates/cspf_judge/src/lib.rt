//! The judge of journals, requests and replies. It works in one thread, and publishes no versions.
//!
//! `audit` judges replies against a journal and requests. `specs/Lines.antt` defines how the text of
//! the replies is cut into lines. `specs/Findings.antt` defines the finding about a line, which
//! depends on a journal's batches, the requests and the earlier lines. `specs/Audits.antt` defines
//! the audit of all lines. `specs/AuditErrors.antt` defines the audit of whole streams, and why
//! streams aren't audited. `run_audit` writes an audit, and `specs/AuditRun.antt` defines its output.
//! `audit_with_questions` and `run_audit_with_questions` do the same for rows that also ask questions.
//! `specs/Asked.antt` defines these rows and their lines, and `specs/QuestionAudits.antt` the audit.
//!
//! `replay` makes the table that batches lead to. `specs/Replays.antt` defines why batches can't be
//! replayed. `run_snapshot` writes the snapshot of
//! a journal's last database, and `specs/SnapshotRun.antt` defines its output.
//!
//! The crate also has the code that all runs over a journal and requests share. `specs/Inputs.antt`
//! defines how a journal and requests are read, and the lines that refuse them.
//! `specs/EarlyEnds.antt` defines how a run ends early.
#![tactic(auto)]

mod audit_run;
mod audits;
mod early_end;
mod input;
mod line;
mod output;
mod snapshot_run;
mod snapshots;

pub use audit_run::{run_audit, run_audit_with_questions};
pub use audits::{Audit, AuditError, AuditFault, QuestionAuditError, audit, audit_with_questions};
pub use cspf_snapshot::{MOST_SNAPSHOT_BATCHES, one_snapshot, snapshot};
pub use early_end::{EarlyEnd, JudgeError};
pub use input::{accept_rest, batches_of, journal_end_of, requests_of};
pub use line::JudgeLine;
pub use output::{put, put_line, refuse};
pub use snapshot_run::run_snapshot;
pub use snapshots::{ReplayError, replay};
