//! Paths from bytes, and paths as prefixes of others.
#![tactic(auto)]

mod prefix;
mod read;

pub use prefix::{begins, is_prefix, parting};
pub use read::{PathFault, read_path};
