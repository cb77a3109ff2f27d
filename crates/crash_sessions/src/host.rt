//! A host in memory that notes which of its calls changed the disk.
ghost use Rattle.std.specs.Prelude.{◌≡◌, ◌<◌, ◌^◌, false, length, OnOk};
ghost use Rattle.ice_base.specs.Disk.{Nowhere, HasCause};
ghost use Rattle.ice_base.specs.Frames.{Within};
ghost use Rattle.disk_mem.specs.MemHostView.{told_by};

use disk_mem::MemHost;
use ice_base::{Block, Disk, DiskFault, Host, SinkFault, SourceFault};
use std::alloc::{AllocError, Global};

/// A call that wrote a block or settled all.
#[derive(Clone, Copy)]
pub struct Change {
    /// The number of the call.
    pub number: u64,
    /// Whether it settled all blocks.
    pub settles: bool,
}

/// A host in memory, and the writes and barriers among its calls. It tells nothing of what it holds, so that what runs on it is
/// proved without a word on content.
#[derive(Drop)]
pub struct Watched {
    host: MemHost,
    changes: Vec<Change>,
    ghost few: { (told_by host).size < 2 ^ 32 },
}

impl Watched {
    /// The host, with no call noted yet, and room for so many notes.
    pub fn new(alloc: Global, host: MemHost, notes: usize) -> Result<Watched, AllocError> {
        let _size = host.blocks();
        let changes = Vec::with_capacity(alloc, notes)?;
        Ok(Watched { host, changes })
    }

    /// The host that was watched.
    pub fn host(&self) -> &MemHost {
        &self.host
    }

    /// The calls that wrote or settled blocks, in their order; None where there was no room for all of them.
    pub fn changes(&self) -> Option<&[Change]> {
        let made = self.host.writes().saturating_add(self.host.barriers());
        if self.changes.len() as u64 == made {
            Some(&self.changes)
        } else {
            None
        }
    }

    /// Notes the next call.
    fn note(&mut self, settles: bool)
        ensures { self.new.host ≡ self.old.host }
    {
        let number = self.host.calls();
        let _ = self.changes.push(Change { number, settles });
    }
}

impl Disk for Watched {
    ghost use Rattle.crash_sessions.specs.WatchedView.{watched, watched_left};

    ghost state = { watched };

    ghost left = { watched_left };

    ghost agrees_now = { λ w image out left. absurd left };

    ghost counts_now = { λ w t tells le. Prim.cc };

    ghost small = { λ w. w.few };

    ghost whole = { λ w tells. Prim.cc };

    fn blocks(&self) -> u32 {
        self.host.blocks()
    }

    fn read(&mut self, at: u32, into: &mut Block) -> Result<(), DiskFault> {
        self.host.read(at, into)
    }

    fn write(&mut self, at: u32, from: &Block) -> Result<(), DiskFault> {
        self.note(false);
        self.host.write(at, from)
    }

    fn barrier(&mut self) -> Result<(), DiskFault> {
        self.note(true);
        self.host.barrier()
    }
}

impl Host for Watched {
    fn take(&mut self, into: &mut [u8]) -> Result<usize, SourceFault> {
        self.host.take(into)
    }

    fn give(&mut self, bytes: &[u8]) -> Result<usize, SinkFault> {
        self.host.give(bytes)
    }
}
