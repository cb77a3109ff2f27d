//! Why a call over a lot gave up.

/// Why a block of a lot could not be had or put.
#[derive(Clone, Copy, Debug, PartialEq, Eq)]
pub enum BlockFault {
    /// The disk failed. Its count of faults says so as well.
    Disk = 1,
    /// The address isn't one of the lot.
    Range,
}

/// What a damaged lot breaks. The numbers are those that replies show.
#[derive(Clone, Copy, Debug, PartialEq, Eq)]
pub enum Rule {
    /// The sub-super block's first bytes.
    Magic = 1,
    /// Its version.
    Version,
    /// Its slot.
    Slot,
    /// Its mode.
    Mode,
    /// Its number of accepted commands.
    Done,
    /// Its counts of used blocks and inodes.
    Counts,
    /// An inode's kind or size.
    Kind,
    /// A pointer to a block.
    Pointer,
    /// A block of two maps.
    BlockTwice,
    /// An inode of two entries.
    InodeTwice,
    /// A name in a directory.
    Name,
    /// A name that a directory has twice.
    NameTwice,
    /// A bitmap.
    Bitmap,
    /// The depth of a tree.
    Depth,
    /// The header of an open journal.
    Header,
}

/// Why a call on a cube's blocks gave up.
#[derive(Clone, Copy, Debug, PartialEq, Eq)]
pub enum OpFault {
    /// The disk failed. Its count of faults says so as well.
    Disk,
    /// A block that was read breaks the rule.
    Damaged(Rule),
    /// No data block is free.
    NoSpace,
    /// No inode is free.
    NoNodes,
}
