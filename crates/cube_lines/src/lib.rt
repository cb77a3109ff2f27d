//! Lines of commands that one cube in a host in memory answers, beside a plain slow tree, for tests and stored runs.
#![tactic(auto)]

mod calls;
mod lines;
mod session;

pub use calls::{reply, reply_to};
pub use lines::command_of;
pub use session::{Answer, Session};
