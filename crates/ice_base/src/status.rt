//! How a run ends, and the image that its words name.

/// How a run ends. The program's exit status is its number.
#[derive(Clone, Copy, Debug, PartialEq, Eq)]
pub enum Status {
    /// 0: all was done.
    Done,
    /// 1: the words are no form of the program.
    Usage,
    /// 2: there was no memory.
    Memory,
    /// 3: the source failed.
    Source,
    /// 4: the sink failed.
    Sink,
    /// 5: the disk failed.
    Disk,
    /// 6: the image holds no volume.
    Volume,
    /// 7: the script has more than 67,108,864 bytes.
    Script,
    /// 8: the disk has too few blocks.
    Small,
}

/// Why words name no image.
#[derive(Clone, Copy, Debug, PartialEq, Eq)]
pub enum ImageFault {
    /// They are no form of the program.
    Usage = 1,
    /// There was no memory.
    Memory,
}

/// The image file that words name, and the number of blocks that it must have at least.
#[derive(Clone, Copy, Debug)]
pub struct Image<'a> {
    pub name: &'a str,
    pub least: u32,
}
