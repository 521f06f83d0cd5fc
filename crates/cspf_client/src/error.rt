//! Why the rows of a client, or its stream, aren't answered to the end.

ghost use Rattle.std.specs.Prelude.{◌≡◌};
ghost use Rattle.cspf_client.specs.ErrorNames.{client_error_of};

use cspf_disjoint::PairError;
use cspf_publish::AskError;
use cspf_stream::{StreamError, StreamStop};
use thiserror::Error;

/// Why a row of a client isn't answered.
#[derive(Clone, Copy, Debug, PartialEq, Eq)]
pub enum RowFault {
    /// The client's asker failed, or memory was refused.
    Ask(AskError),
    /// The answer to a request for a pair isn't proved by what the search found. No run is known in
    /// which this happens.
    Undecided,
}

impl RowFault {
    ghost use Rattle.cspf_client.specs.ErrorNames.{fault_of_answer};

    /// The fault of a row whose question has no answer for this reason.
    pub(crate) fn of(error: PairError) -> RowFault
        ensures { result ≡ fault_of_answer error }
    {
        match error {
            PairError::Memory => RowFault::Ask(AskError::Memory),
            PairError::Undecided => RowFault::Undecided,
        }
    }
}

/// Why not all requests of a client are answered.
#[derive(Clone, Copy, Debug, PartialEq, Eq, Error)]
pub enum ClientError {
    /// The client's stream stopped.
    #[error("{0}")]
    Stream(StreamError),
    /// The client couldn't enter the published replica, which is a copy of the table of links. No
    /// run has shown this error yet.
    #[error("no entry")]
    NoEntry,
    /// The client knows more batches than are published. No run has shown this error yet.
    #[error("ahead of what is published")]
    Ahead,
    /// The answer to a request for a pair isn't proved by what the search found. No run is known in
    /// which this happens.
    #[error("an answer without a proof")]
    Undecided,
}

impl ClientError {
    /// The error of a client whose stream stops in this way.
    pub(crate) fn of(stop: StreamStop<RowFault>) -> ClientError
        ensures { result ≡ client_error_of stop }
    {
        match stop {
            StreamStop::Stream(why) => ClientError::Stream(why),
            StreamStop::Answer(RowFault::Ask(AskError::Memory)) => {
                ClientError::Stream(StreamError::Memory)
            }
            StreamStop::Answer(RowFault::Ask(AskError::NoEntry)) => ClientError::NoEntry,
            StreamStop::Answer(RowFault::Undecided) => ClientError::Undecided,
        }
    }
}
