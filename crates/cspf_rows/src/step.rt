use crate::row::Row;
use cspf_model::{Change, Request};

/// What a row of a stream asks for.
#[derive(Clone, Copy)]
pub enum Step {
    /// A change of the database, which stays open until an `end` row comes.
    Change(Change),
    /// The end of the batch that has this number and consists of the open changes. `count` is the
    /// number of changes that the `end` row gives.
    End { number: u32, count: u32 },
    /// A request, which is to be answered.
    Ask(Request),
}

impl Step {
    ghost use Rattle.std.specs.Prelude.{◌≡◌};
    ghost use Rattle.cspf_rows.specs.Steps.{step_of};

    /// The step that a row of a stream asks for: a change, the end of a batch, or the answer to a
    /// request.
    pub fn of(row: &Row) -> Step
        ensures { result ≡ step_of row.now }
    {
        match row {
            Row::Put(link) => Step::Change(Change::Put(*link)),
            Row::Remove { from, local } => Step::Change(Change::Remove {
                from: *from,
                local: *local,
            }),
            Row::Node { router, transit } => Step::Change(Change::Node {
                router: *router,
                transit: *transit,
            }),
            Row::End { number, count } => Step::End {
                number: *number,
                count: *count,
            },
            Row::Ask(request) => Step::Ask(*request),
        }
    }
}
