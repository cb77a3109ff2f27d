//! The write set: the blocks that a transaction changed, with their addresses.
#![tactic(auto)]

mod set;

pub use set::{Entry, WriteSet};
