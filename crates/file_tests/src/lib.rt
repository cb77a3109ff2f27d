//! What only a run shows of files and directories: that the calls succeed, and the blocks that worked ones use.
#![tactic(auto)]

#[cfg(test)]
mod dirs;
#[cfg(test)]
mod tests;
