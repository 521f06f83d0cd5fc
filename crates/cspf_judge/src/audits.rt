//! The audit. It checks whether each reply was the right reply to its request at the version that
//! the reply names.

mod asked;
mod asks;
mod audit_error;
mod auditing;
mod claim;
mod comparing;
mod faults;
mod finding;
mod ids;
mod journal;
mod lines;
mod question_audit_error;
mod replay;
mod replies;
mod reporting;
mod words;

pub use audit_error::AuditError;
pub use auditing::{audit, audit_with_questions};
pub use faults::{Audit, AuditFault};
pub use question_audit_error::QuestionAuditError;
