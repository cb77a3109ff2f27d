//! The headline: what a crash in a session and damage to one cube leave of all others, and how the next session serves them.
#![tactic(auto)]

mod laws;
mod sessions;

pub use laws::{acknowledged_is_kept, mounted_cubes_keep_all};
pub use sessions::two_sessions;
