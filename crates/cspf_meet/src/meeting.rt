//! The two searches, one from each end of a route.

ghost use Rattle.std.specs.Prelude.{◌≤◌};
ghost use Rattle.cspf_meet.specs.declared.limits.TheConstants.{NO_WAY};

use crate::direction::Direction;
use crate::labels::Labels;
use crate::limits::{FEW, MOST_TURNS, NO_WAY};
use crate::look::turn;
use cspf_walk::LocatedRequest;
use std::alloc::{AllocError, Global};

/// The state of the two searches.
#[derive(Drop)]
pub(crate) struct Meeting {
    /// The labels of the search from the head-end. It follows the links.
    pub(crate) ahead: Labels,
    /// The labels of the search from the tail-end. It follows the links against their direction.
    pub(crate) back: Labels,
    /// The least rank found so far of a way from the head-end to the tail-end, or `NO_WAY`.
    pub(crate) most: u64,
    ghost small: { most ≤ NO_WAY },
}

impl Meeting {
    ghost use Rattle.std.specs.Prelude.{◌<◌, ◌^◌, IfOk, OnOk};
    ghost use Rattle.cspf_meet.specs.Meetings.{IsMeeting};
    ghost use Rattle.cspf_walk.specs.Ways.{IsLocatedRequest};

    /// The state before any link is looked at. Only the two ends wait.
    pub(crate) fn begin(alloc: Global, query: LocatedRequest<'_>) -> Result<Meeting, AllocError>
        requires { IsLocatedRequest query }
        ensures { IfOk result (IsMeeting query.entry) }
    {
        Ok(Meeting {
            ahead: Labels::begin(alloc, query.from as u16)?,
            back: Labels::begin(alloc, query.to as u16)?,
            most: NO_WAY,
        })
    }

    /// Looks at one router, in the search with fewer waiting routers. If only a few routers wait in
    /// the search from the tail-end, this search goes on. `ahead` and `back` are the least ranks that
    /// wait in the two searches.
    fn turn(&mut self, query: LocatedRequest<'_>, ahead: u64, back: u64) -> Result<(), AllocError>
        requires query { IsLocatedRequest query }
        requires ahead { ahead < 2 ^ 54 }
        requires back { back < 2 ^ 54 }
        requires meeting { IsMeeting query self.old }
        ensures { OnOk result (IsMeeting query.entry self.new) }
    {
        let waiting = self.back.waiting();
        if waiting > FEW && self.ahead.waiting() <= waiting {
            self.most = turn(
                query,
                Direction::Ahead,
                back,
                self.most,
                &self.back.ranks,
                &mut self.ahead,
            )?;
        } else {
            self.most = turn(
                query,
                Direction::Back,
                ahead,
                self.most,
                &self.ahead.ranks,
                &mut self.back,
            )?;
        }
        Ok(())
    }

    /// Goes on until no way of a lower rank can be found, or for `MOST_TURNS` routers.
    pub(crate) fn meet(&mut self, query: LocatedRequest<'_>) -> Result<(), AllocError>
        requires query { IsLocatedRequest query }
        requires meeting { IsMeeting query self.old }
        ensures { OnOk result (IsMeeting query.entry self.new) }
    {
        for _turn in 0..MOST_TURNS {
            let (Some(ahead), Some(back)) = (self.ahead.least(), self.back.least()) else {
                return Ok(());
            };
            if ahead + back >= self.most {
                return Ok(());
            }
            self.turn(query, ahead, back)?;
        }
        Ok(())
    }
}
