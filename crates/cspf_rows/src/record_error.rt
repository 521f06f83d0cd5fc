ghost use Rattle.std.specs.Prelude.{◌≡◌};
ghost use Rattle.csv.specs.Reading.{error_kind};
ghost use Rattle.cspf_rows.specs.ReadFaults.{stream_fault_of};
ghost use Rattle.cspf_rows.specs.RecordFaults.{fault_of};

use csv::ErrorKind;
use thiserror::Error;

/// Why a record can't be read.
#[derive(Clone, Copy, Debug, PartialEq, Eq, Error)]
pub enum RecordError {
    /// Memory was refused.
    #[error("out of memory")]
    Memory,
    /// A read failed.
    #[error("a read failed")]
    Device,
}

impl RecordError {
    /// The error of a stream in which a record can't be read for this reason: `memory` if memory
    /// was refused, and `device` if a read failed.
    pub fn of_stream<E: Copy>(self, memory: E, device: E) -> E
        ensures { result ≡ stream_fault_of memory device self }
    {
        match self {
            RecordError::Memory => memory,
            RecordError::Device => device,
        }
    }
}

impl From<csv::Error> for RecordError {
    ghost from_gives = { λ error fault. fault ≡ fault_of (error_kind error) };

    fn from(error: csv::Error) -> RecordError {
        match error.into_kind() {
            ErrorKind::OutOfMemory => RecordError::Memory,
            _ => RecordError::Device,
        }
    }
}
