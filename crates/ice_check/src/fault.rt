//! What a check answers.
use ice_base::Rule;

/// What a lot holds that reads as a tree.
#[derive(Clone, Copy, Debug, PartialEq, Eq)]
pub struct Summary {
    /// The data blocks and indirect blocks of its files and directories.
    pub blocks: u32,
    /// The number of its files and directories, the root among them.
    pub nodes: u32,
    /// The number of accepted commands.
    pub done: u64,
}

/// Why a check says no summary.
#[derive(Clone, Copy, Debug, PartialEq, Eq)]
pub enum CheckFault {
    /// The blocks break the rule.
    Damaged(Rule),
    /// The disk failed. Its count of faults says so as well.
    Disk,
}
