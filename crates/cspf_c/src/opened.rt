ghost use Rattle.std.specs.Prelude.{◌≡◌, ◌++◌, ℕ, List, [], length, IfOk};
ghost use Rattle.cspf_c.specs.Calls.{AreGiven, IsEnded};
ghost use Rattle.cspf_c.specs.History.{HasAnswered};

use crate::session::SolveSession;
use std::alloc::{AllocError, Global};

/// A session, together with the lines of the last call.
#[derive(Drop)]
pub struct Opened {
    pub(crate) session: SolveSession,
    pub(crate) lines: Vec<u8>,
}

impl Opened {
    /// A new session, which was given no row and holds no lines.
    pub(crate) fn new(alloc: Global) -> Result<Opened, AllocError>
        ensures { IfOk result (λ opened. HasAnswered opened.session.taken [] [] × (opened.lines.items ≡ [])) }
    {
        Ok(Opened {
            session: SolveSession::new(alloc)?,
            lines: Vec::new(alloc),
        })
    }

    /// Gives the rows of these bytes to the session. Returns the session, which then holds the
    /// lines that answer these rows.
    pub(crate) fn answer(self, alloc: Global, bytes: &[u8]) -> Result<Opened, AllocError>
        ensures { IfOk result (λ opened. AreGiven bytes.now (length opened.lines.items) self opened) }
    {
        let Opened { session, lines: _ } = self;
        let (session, lines) = session.answer(alloc, bytes)?;
        Ok(Opened { session, lines })
    }

    /// Returns the session, which then holds the last line of a run over all rows that it was
    /// given. More rows may be given to the session afterwards.
    pub(crate) fn end(self, alloc: Global) -> Result<Opened, AllocError>
        ensures { IfOk result (λ opened. IsEnded (length opened.lines.items) self opened) }
    {
        let Opened { session, lines: _ } = self;
        let lines = session.last_line(alloc)?;
        Ok(Opened { session, lines })
    }
}
