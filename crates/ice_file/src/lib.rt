//! Files as byte strings.
#![tactic(auto)]

mod cuts;
mod inode;
mod pieces;
mod reads;
mod writes;

pub use cuts::{cut_in, cut_to};
pub use reads::{read_at, read_in};
pub use writes::{write_at, write_in};
