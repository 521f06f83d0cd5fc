//! The sessions of a client: after a session, its writer may open the streams of the next one.

ghost use Rattle.std.specs.Prelude.{◌≡◌, IfErr};

use crate::{Client, Replies};

/// A writer of replies that can open the streams of the client's next session.
pub trait Reopens<Q>: Replies {
    ghost use Rattle.std.specs.Prelude.{Result};
    ghost use Rattle.cspf_client.specs.declared.client.Client.{Client};

    /// What `reopen` may return for a writer.
    ghost reopens: { Self → Result (Client Q Self) Self → Type 0 };

    /// Opens the streams of the next session after a session has ended. If there is no further
    /// session, returns the writer unchanged.
    fn reopen(self) -> Result<Client<Q, Self>, Self>
        requires { Self.has_ended self }
        ensures opened { reopens self result }
        ensures same { IfErr result (λ writer. writer ≡ self) };
}

/// A client whose replies are written to a vector has only one session.
impl<Q> Reopens<Q> for Vec<u8> {
    ghost use Rattle.std.specs.Prelude.{◌≡◌, Err};

    ghost reopens = { λ writer result. result ≡ Err writer };

    fn reopen(self) -> Result<Client<Q, Vec<u8>>, Vec<u8>> {
        Err(self)
    }
}
