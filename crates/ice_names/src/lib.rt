//! The cube table: the paths of an image's cubes, with their slots and marks.
#![tactic(auto)]

mod bytes;
mod mark;
mod row;
mod table;

pub use mark::Mark;
pub use table::Names;
