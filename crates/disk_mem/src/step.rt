//! What a host in memory remembers of a call.
ghost use Rattle.std.specs.Prelude.{◌≡◌};

use ice_base::Block;

/// A call that changed something, by its number.
#[derive(Drop)]
pub enum Step {
    /// A good write: the block's number and its bytes.
    Write(u64, u32, Block),
    /// A write that failed: the block is loose, and its bytes are as they were.
    Failed(u64, u32),
    /// A good barrier.
    Barrier(u64),
    /// A good give: how many bytes had been given after it.
    Give(u64, usize),
}

impl Step {
    ghost use Rattle.disk_mem.specs.Memory.{call_number};

    /// The number of the call.
    pub fn number(&self) -> u64
        ensures { result ≡ call_number self.now }
    {
        match self {
            Step::Write(number, _, _) => *number,
            Step::Failed(number, _) => *number,
            Step::Barrier(number) => *number,
            Step::Give(number, _) => *number,
        }
    }
}
