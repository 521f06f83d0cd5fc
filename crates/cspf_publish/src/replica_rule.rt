//! The rule of the replicas (the two copies of the table), which is an invariant of all steps on
//! them. Also the views after each kind of step: a view has the batches that the publisher or an
//! asker knows.
ghost use Rattle.cspf_publish.specs.ReplicaRule.{HoldsBetweenSteps, Enters, Opens, Publishes, note_of, view_with_note};
ghost use Rattle.cspf_publish.specs.declared.seat_view.SeatView.TheVariants.{New as IsNew};

use crate::replica::Replica;
use crate::seat_view::SeatView;
use atomic_table::{Join, Split};
use crossbeam_utils::rule::{Outcome, Protocol};

/// The rule of the replicas (the two copies of the table). It is an invariant: it holds before the
/// first step on the replicas, and after each step.
pub struct ReplicaRule;

impl Protocol<Replica, SeatView> for ReplicaRule {
    ghost holds = { HoldsBetweenSteps };

    ghost first = { IsNew };
}

/// The publisher's first step, which changes no replica's database. After this step the publisher's
/// view has the published batches.
pub struct Opening;

impl Outcome<Replica, SeatView> for Opening {
    ghost then = { Opens };
}

/// The swap of the two replicas (copies of the table). At this step a batch takes effect.
pub struct Swap;

impl Outcome<Replica, SeatView> for Swap {
    ghost then = { Publishes };
}

/// The entry of an asker (which answers requests) into a replica (a copy of the table). At this
/// step the asker's search takes effect.
pub struct Entry;

impl Outcome<Replica, SeatView> for Entry {
    ghost then = { Enters };
}

/// The note from which a new asker's view is made. It has the batches that the publisher knows.
pub struct FirstNote;

impl Split<SeatView> for FirstNote {
    ghost left = { λ v. v };

    ghost right = { note_of };
}

impl Join<SeatView> for FirstNote {
    ghost both = { view_with_note };

    ghost spent = { IsNew };
}
