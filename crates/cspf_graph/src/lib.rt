//! Which links a request may use, and which routers a walk may leave. At which routers a leg may
//! end, which routers a leg may visit, and what a route may do at each router in each leg. The
//! functions `accepts`, `admissible`, `may_leave`, `may_leave_at`, `member` and `inside` decide
//! exactly `IsAdmitted`, `IsUsable`, `MayLeave`, `IsTarget` and `IsInside` of `cspf_model`. The
//! functions `may_be_left`, `may_lead_over` and `find_roles` decide exactly `MayBeLeft`,
//! `MayLeadOver`, `MayEnter` and `MayTurn`, which this crate defines. Only `find_roles` allocates
//! memory.
#![tactic(auto)]

mod admission;
mod lists;
mod roles;
mod targets;
mod transit;

pub use admission::{accepts, admissible};
pub use lists::listed;
pub use roles::{Role, Roles, find_roles, is_loose};
pub use targets::{inside, member};
pub use transit::{may_be_left, may_lead_over, may_leave, may_leave_at};
