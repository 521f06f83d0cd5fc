ghost use Rattle.std.specs.Prelude.{◌≡◌};

use csv::Reader;
use std::io::{Read, Write};

/// A proof that the requests of a client have ended and that their reader is dropped. The value can't
/// be copied, so there is at most one such value for each reader.
#[derive(Drop)]
pub struct EndOfRequests {
    ended: (),
}

impl EndOfRequests {
    /// Drops the reader of a client's requests.
    pub(crate) fn drop_reader<Q: Read + Drop>(requests: Reader<Q>) -> EndOfRequests {
        let _dropped = requests;
        EndOfRequests { ended: () }
    }
}

/// A writer of replies. A call of `end` tells the writer that no more replies come.
pub trait Replies: Write {
    /// `end` was called, and nothing was written after it.
    ghost has_ended: { Self → Type 0 };

    /// Tells the writer that no more replies come. The writer may then signal the end to the program
    /// that reads the replies. The call consumes `requests`, so it is made at most once.
    fn end(&mut self, requests: EndOfRequests)
        ensures same { Self.contents self.new ≡ Self.contents self.old }
        ensures ended { has_ended self.new };
}

/// `end` does nothing for a vector: its replies are read only after the run has returned it.
impl Replies for Vec<u8> {
    ghost has_ended = { λ _. Unit {0} };

    fn end(&mut self, _requests: EndOfRequests) {}
}
