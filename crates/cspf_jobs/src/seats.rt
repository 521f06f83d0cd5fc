//! The first and the last seat of a counter, which belong to no worker. A seat records which
//! numbers were drawn from the counter, and how many draws are left. Workers get their draws from
//! the first seat, and the last seat has the numbers that all workers have drawn.
ghost use Rattle.std.specs.Prelude.{◌≡◌};

use crate::draw_rule::WordSeat;
use std::marker::Model;

/// The first seat of a counter: a record of the draws that no worker has yet. Each new drawer, with
/// which a worker draws, gets its draws from this seat.
#[derive(Drop)]
pub struct FirstSeat {
    pub(crate) seat: WordSeat,
    pub(crate) requests: u64,
    pub(crate) shares: usize,
}

impl Model for FirstSeat {
    ghost use Rattle.std.specs.Prelude.{◌≡◌, ◌+◌, ◌*◌, []};
    ghost use Rattle.cspf_jobs.specs.DrawnNumbers.{FreeShares};

    ghost Value = { FreeShares };

    ghost view = { λ f. record { shares = f.shares; counter = record { table = f.seat.table_id; requests = f.requests } } };

    ghost invariant = { λ f. (f.seat.me.0.drawn ≡ []) × (f.seat.me.0.left ≡ (f.requests + 1) * f.shares)
        × (f.seat.me.0.share ≡ f.requests + 1) × (f.seat.me.1 ≡ []) };
}

impl FirstSeat {
    /// The number of further workers for which this first seat has draws.
    pub fn shares(&self) -> usize
        ensures { result ≡ self.now.shares }
    {
        self.shares
    }
}

/// The last seat of a counter: a record that is made after all workers have drawn. It has the drawn
/// numbers of all workers, and all draws that are left.
#[derive(Drop)]
pub struct LastSeat {
    pub(crate) seat: WordSeat,
    pub(crate) requests: u64,
}

impl Model for LastSeat {
    ghost use Rattle.std.specs.Prelude.{◌≡◌, ◌+◌, ◌*◌, length};
    ghost use Rattle.cspf_jobs.specs.DrawnNumbers.{AllDrawn};
    ghost use Rattle.cspf_jobs.specs.declared.limits.TheConstants.{MOST_DRAWERS};

    ghost Value = { AllDrawn };

    ghost view = { λ l. record { drawn = l.seat.me.0.drawn; counter = record { table = l.seat.table_id; requests = l.requests } } };

    ghost invariant = { λ l. length l.seat.me.0.drawn + l.seat.me.0.left ≡ MOST_DRAWERS * (l.requests + 1) };
}
