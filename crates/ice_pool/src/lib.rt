//! The pool of free blocks and inodes over any keep: the bitmaps of a lot's groups, and the counts of its sub-super block.
#![tactic(auto)]

mod bit_pool;
mod change;
mod find;

pub use bit_pool::BitPool;
