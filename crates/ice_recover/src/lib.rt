//! The replay of a lot's journal that a crash left open.
#![tactic(auto)]

mod laws;
mod replays;

pub use laws::{a_stopped_replay_is_begun_again, lots_outlast_others, phases_stand_for_maps};
pub use replays::replay;
