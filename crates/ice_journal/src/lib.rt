//! Journals: where they lie, what they leave of a lot's blocks, and the steps of a commit and of a replay.
#![tactic(auto)]

mod area;
mod commits;
mod effective;
mod journal;
mod replays;
mod settle;
mod view;
mod writes;

pub use area::{Area, area_of, system_area};
pub use commits::{CommitFault, commit};
pub use effective::{Effective, JournalFault};
pub use journal::{Journal, SystemJournal};
pub use replays::replay;
pub use writes::{set_gate, write_body};
