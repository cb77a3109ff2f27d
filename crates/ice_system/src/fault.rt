//! Why the tables could not be opened or changed.
use ice_layout::LayoutFault;

/// Why a change of the tables failed. The disk's count of faults says so as well, but where an earlier change answered `After`.
#[derive(Clone, Copy, Debug, PartialEq, Eq)]
pub enum SystemFault {
    /// A call of the disk failed before the first write of the gate: the tables stand as they were.
    Before = 1,
    /// One failed from that write on, in this change or an earlier one: the tables on the disk are the old ones or the new ones.
    After,
}

/// Why the tables of a disk are not opened.
#[derive(Clone, Copy, Debug, PartialEq, Eq)]
pub enum TablesFault {
    /// The disk has no block, or fewer than an accepted superblock names.
    Small,
    /// The first fault of the image.
    Layout(LayoutFault),
    /// The disk failed. Its count of faults says so as well.
    Disk,
    /// There was no memory for the blocks of a change.
    Memory,
}
