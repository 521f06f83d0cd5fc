//! The errors of a journal or of a stream of requests if a record can't be read or memory is
//! refused.

ghost use Rattle.std.specs.Prelude.{◌≡◌};
ghost use Rattle.cspf_rows.specs.ReadFaults.{stream_fault_of};
ghost use Rattle.cspf_rows.specs.declared.read_error.ReadError.TheVariants as read_error;
ghost use Rattle.cspf_rows.specs.declared.requests_error.RequestsError.TheVariants as requests_error;

use crate::read_error::ReadError;
use crate::record_error::RecordError;
use crate::requests_error::RequestsError;
use std::alloc::AllocError;

impl From<RecordError> for ReadError {
    ghost from_gives = { λ error fault. fault ≡ stream_fault_of read_error.Memory read_error.Device error };

    fn from(error: RecordError) -> ReadError {
        error.of_stream(ReadError::Memory, ReadError::Device)
    }
}

impl From<RecordError> for RequestsError {
    ghost from_gives = { λ error fault. fault ≡ stream_fault_of requests_error.Memory requests_error.Device error };

    fn from(error: RecordError) -> RequestsError {
        error.of_stream(RequestsError::Memory, RequestsError::Device)
    }
}

impl From<AllocError> for ReadError {
    ghost from_gives = { λ _ fault. fault ≡ read_error.Memory };

    fn from(_refused: AllocError) -> ReadError {
        ReadError::Memory
    }
}

impl From<AllocError> for RequestsError {
    ghost from_gives = { λ _ fault. fault ≡ requests_error.Memory };

    fn from(_refused: AllocError) -> RequestsError {
        RequestsError::Memory
    }
}
