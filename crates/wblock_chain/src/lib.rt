//! The session that keeps a world, `chain WORLD`: each of its lines is a single command over the files in which WORLD holds that world.
#![tactic(auto)]

mod asked;
mod plan;
mod replies;
mod request;
mod session;
mod start;
mod usage;

pub use asked::{SessionCommand, session_command_of};
pub use replies::reply_of;
pub use session::run_session;
pub use start::session_world_of;
