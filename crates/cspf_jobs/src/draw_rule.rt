//! The rule of draws, which is an invariant of all steps on a counter. Also how each kind of step
//! changes the numbers that a worker has drawn, and how often it may still draw.
ghost use Rattle.cspf_jobs.specs.DrawRule.{HoldsBetweenDraws, Draws};
ghost use Rattle.cspf_jobs.specs.SeatDraws.{all_draws, one_share_less, one_share, both_seats, spent_seat};

use crate::seat_draws::SeatDraws;
use atomic_table::{Join, Play, Seat, Shared, Split, TableRule};

/// The rule of draws. It is an invariant: it holds before the first step on a counter, and after
/// each step. It says which numbers the workers have drawn, and how often they may still draw, for
/// the counter's present value.
pub struct DrawRule;

impl TableRule<u64, SeatDraws, u64> for DrawRule {
    ghost holds = { HoldsBetweenDraws };

    ghost first = { all_draws };
}

/// A draw appends the counter's value to the numbers that the worker has drawn, and adds 1 to the
/// counter.
pub struct Draw;

impl Play<u64, SeatDraws> for Draw {
    ghost then = { Draws };
}

/// The two steps that move draws between seats. A split makes the seat of a new worker, and moves
/// one worker's draws to it. A join merges the drawn numbers and the remaining draws of one seat
/// into another seat. A seat records the numbers that a worker has drawn, and how often it may
/// still draw.
pub struct Share;

impl Split<SeatDraws> for Share {
    ghost left = { one_share_less };

    ghost right = { one_share };
}

impl Join<SeatDraws> for Share {
    ghost both = { both_seats };

    ghost spent = { spent_seat };
}

/// A counter's value, which is called its *word*. All workers that draw from the counter share it.
/// The rule of draws depends on the number of requests. So in proofs the rule has this number as a
/// parameter, which is called its *key*.
pub(crate) type Word = Shared<u64, SeatDraws, u64, DrawRule>;

/// A worker's seat at a counter. In proofs, it records the numbers that the worker has drawn, and
/// how often the worker may still draw. Seats of other tables may also have slots, but the table of
/// a counter has no slots.
pub(crate) type WordSeat = Seat<u64, SeatDraws>;
