//! What the blocks of a lot stand for: the definitions of a tree that they hold, and their laws.
#![tactic(auto)]

mod laws;

pub use laws::{cost_is_used, fresh_lot, marks_as_sets, one_tree, same_blocks, small_count};
