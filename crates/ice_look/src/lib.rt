//! The commands of one tree that change nothing, over any view and form, and the walks that its changes begin with.
#![tactic(auto)]

mod blank;
mod ends;
mod fault;
mod heights;
mod laws;
mod lists;
mod looks;
mod paths;
mod place;

pub use ends::{Ends, TwoEnds, find_both, find_ends, last_of};
pub use fault::refusal_of;
pub use heights::is_higher;
pub use laws::{broken_named, recovers_unbroken};
pub use lists::list;
pub use looks::{DirAt, FileAt, file_at, read, stat};
pub use paths::{DEEPEST, check_path, check_paths};
pub use place::Place;
