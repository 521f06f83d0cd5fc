ghost use Rattle.std.specs.Prelude.{◌+◌, ◌≤◌, ℕ, Bool, List, IfOk, IfErr, OnOk};
ghost use Rattle.csv.specs.Records.{fields_of};

use csv::ByteRecord;
use std::alloc::{AllocError, Global};

/// Answers the rows of a stream, one after the other. An implementation reads the fields of each
/// row itself, so it decides which kinds of rows there are. `Row::read` reads the rows of a
/// database. `context` is a value that is needed to answer a row, such as the handle of a runtime.
/// No answer depends on this value.
pub trait Answering<C> {
    /// Why a row isn't answered. This type is `AllocError` if an answer fails only when memory is
    /// refused.
    type Fault;

    /// A relation between the row's number, counted from 1, the state before the row, the row's
    /// fields, its line, and the state after the row.
    ghost answers: { ℕ → Self → List (List ℕ) → List ℕ → Self → Type 0 };

    /// A relation for rows whose answer fails. It is between the fault, the row's number, the state
    /// before the row, the row's fields, and the state after the fault.
    ghost fails: { Self.Fault → ℕ → Self → List (List ℕ) → Self → Type 0 };

    /// An invariant of the state before the row with this number. It may state, for example, that a
    /// count is below this number.
    ghost may_stand: { ℕ → Self → Type 0 };

    /// Returns the line that answers the row with this number. The line may be empty.
    fn answer(
        &mut self,
        context: &C,
        alloc: Global,
        place: u64,
        fields: &ByteRecord,
    ) -> Result<Vec<u8>, Self::Fault>
        requires place { 1 ≤ place }
        requires state { may_stand place self.old }
        ensures answered { IfOk result (λ line. answers place self.old (fields_of fields.now)
            line.items self.new) }
        ensures state { OnOk result (may_stand (place + 1) self.new) }
        ensures failed { IfErr result (λ fault. fails fault place self.old (fields_of fields.now)
            self.new) };
}

/// Ends the answers to the rows of a stream with a last line.
pub trait Ending {
    /// A relation between the state after the last answered row, whether the stream has more rows
    /// than are answered, and the last line.
    ghost last: { Self → Bool → List ℕ → Type 0 };

    /// Returns the last line. The line may be empty.
    fn last_line(&self, alloc: Global, too_many: bool) -> Result<Vec<u8>, AllocError>
        ensures { IfOk result (λ line. last self.now too_many line.items) };
}
