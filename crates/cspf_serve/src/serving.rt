//! The run that publishes updates as they come in, while each client asks on its own stream.

mod counted;
mod laws;
mod publishing;
mod served_run;
mod updates;

pub use counted::Counted;
pub use laws::{no_reply_is_behind, seats_with_one_session, served_replies_are_fresh};
pub use publishing::Publishing;
pub use served_run::{
    Seats, Served, ServedError, ServedOptions, open_seats, run_serve, run_serve_with_questions,
    serve_seats,
};
