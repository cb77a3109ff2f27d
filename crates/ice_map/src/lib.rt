//! Inodes, and the maps of their blocks.
#![tactic(auto)]

mod codec;
mod cuts;
mod extends;
mod inodes;
mod maps;
mod reaches;
mod sizes;

pub use codec::{Inode, read_inode, write_inode};
pub use cuts::cut;
pub use extends::extend;
pub use inodes::{get_inode, put_inode};
pub use maps::nth;
pub use reaches::reach;
pub use sizes::{longest_file, map_length};
