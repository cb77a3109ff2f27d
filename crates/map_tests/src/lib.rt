//! What only a run shows of inodes and their maps: that the calls succeed, and their values on worked blocks.
#![tactic(auto)]

#[cfg(test)]
mod tests;
