//! Directories as lists of rows: a name and the inode that it names.
#![tactic(auto)]

mod adds;
mod looks;
mod rows;
mod takes;

pub use adds::{add, add_in};
pub use looks::{entry, entry_in, find, find_in, len};
pub use takes::{take, take_in};
