//! Keeps: what takes the changes of a lot's blocks.
#![tactic(auto)]

mod journaled;
mod list;
mod through;

pub use journaled::JournalKeep;
pub use list::ListKeep;
pub use through::ThroughKeep;
