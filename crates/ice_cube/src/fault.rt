//! Why a cube could not be had.
use ice_base::Rule;

/// Why a lot was not mounted.
#[derive(Clone, Copy, Debug, PartialEq, Eq)]
pub enum CubeFault {
    /// There is no memory.
    Memory,
    /// The disk failed. Its count of faults says so as well.
    Disk,
    /// The lot recovers no tree: its blocks break the rule.
    Damaged(Rule),
}

/// Why a cube was not made.
#[derive(Clone, Copy, Debug, PartialEq, Eq)]
pub enum MakeFault {
    /// There is no memory.
    Memory = 1,
    /// The disk failed. Its count of faults says so as well.
    Disk,
}
