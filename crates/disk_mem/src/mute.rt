//! A host in memory that tells nothing of what it holds.
ghost use Rattle.std.specs.Prelude.{◌≡◌, ◌<◌, ◌≤◌, min, ◌↔◌, ℕ, List, [], false, true, length, is_ok, OnOk, OnErr, IfOk, IsErr};
ghost use Rattle.ice_base.specs.Disk.{block, Nowhere, HasCause, WriteCounts, BarrierCounts, ReadCounts};
ghost use Rattle.ice_base.specs.Frames.{Within};

use crate::MemHost;
use ice_base::{Block, Disk, DiskFault, Host, SinkFault, SourceFault};

/// The host that it holds, for code that may not rely on being told: the script, the output, the failing calls and the
/// blocks, which may hold anything, are set and read there.
#[derive(Drop)]
pub struct MuteHost {
    pub host: MemHost,
}

impl Disk for MuteHost {
    ghost use Rattle.disk_mem.specs.Memory.{Planned, Obeys};
    ghost use Rattle.disk_mem.specs.MemHostView.{memory, told_by, left_by};
    ghost use Rattle.disk_mem.specs.MuteView.{mute, mute_left};

    ghost state = { mute };

    ghost left = { mute_left };

    ghost agrees_now = { λ m image out left. absurd left };

    ghost counts_now = { λ m t tells le. Prim.cc };

    ghost small = { λ m. m.host.few };

    ghost whole = { λ m tells. Prim.cc };

    fn blocks(&self) -> u32 {
        self.host.blocks()
    }

    fn read(&mut self, at: u32, into: &mut Block) -> Result<(), DiskFault>
        requires { at < (mute self.old).size }
        ensures within { Within mute mute_left Nowhere self.old self.new }
        ensures cause { HasCause (mute self.old) (mute self.new) result }
        ensures calm { OnOk result ((mute self.new).faults ≡ (mute self.old).faults) }
        ensures bytes_of { OnOk result (into.new ≡ block (memory self.old.host).blocks at) }
        ensures host { Within told_by left_by Nowhere self.old.host self.new.host }
        ensures fails { IsErr result ↔ Planned (memory self.old.host) }
    {
        self.host.read(at, into)
    }

    fn write(&mut self, at: u32, from: &Block) -> Result<(), DiskFault>
        requires { at < (mute self.old).size }
        ensures within { Within mute mute_left (λ k. k ≡ at) self.old self.new }
        ensures cause { HasCause (mute self.old) (mute self.new) result }
        ensures calm { OnOk result ((mute self.new).faults ≡ (mute self.old).faults) }
        ensures bytes_of { OnOk result (block (memory self.new.host).blocks at ≡ from.now) }
        ensures host { Within told_by left_by (λ k. k ≡ at) self.old.host self.new.host }
        ensures fails { Obeys (Planned (memory self.old.host)) (0 < (memory self.old.host).room) result }
    {
        self.host.write(at, from)
    }

    fn barrier(&mut self) -> Result<(), DiskFault>
        ensures within { Within mute mute_left Nowhere self.old self.new }
        ensures cause { HasCause (mute self.old) (mute self.new) result }
        ensures calm { OnOk result ((mute self.new).faults ≡ (mute self.old).faults) }
        ensures host { Within told_by left_by Nowhere self.old.host self.new.host }
        ensures settles { BarrierCounts (is_ok result) (told_by self.old.host) (told_by self.new.host) }
        ensures fails { Obeys (Planned (memory self.old.host)) (0 < (memory self.old.host).room) result }
    {
        self.host.barrier()
    }
}

impl Host for MuteHost {
    ghost use Rattle.ice_base.specs.Host.{SameDisk, Leaves, Takes, Gives, FirstOf, moved_count};
    ghost use Rattle.disk_mem.specs.Memory.{Planned, Obeys};
    ghost use Rattle.disk_mem.specs.MemHostView.{memory, told_by};
    ghost use Rattle.disk_mem.specs.MuteView.{mute, mute_left};

    fn take(&mut self, into: &mut [u8]) -> Result<usize, SourceFault>
        requires { 0 < length into.old }
        ensures disk { SameDisk (mute self.old) (mute self.new) }
        ensures leaves { Leaves mute mute_left (λ out. out ≡ (mute self.old).streams.aside) self.old self.new }
        ensures takes { Takes false (mute self.old).streams (mute self.new).streams into.new result }
        ensures calm { OnOk result ((mute self.new).streams.source_faults ≡ (mute self.old).streams.source_faults) }
        ensures host { Takes true (told_by self.old.host).streams (told_by self.new.host).streams into.new result }
        ensures fails { IsErr result ↔ Planned (memory self.old.host) }
    {
        self.host.take(into)
    }

    fn give(&mut self, bytes: &[u8]) -> Result<usize, SinkFault>
        requires { 0 < length bytes.now }
        ensures disk { SameDisk (mute self.old) (mute self.new) }
        ensures leaves { Leaves mute mute_left (FirstOf (mute self.old).streams.aside bytes.now (moved_count result)) self.old self.new }
        ensures gives { Gives false (mute self.old).streams (mute self.new).streams bytes.now result }
        ensures calm { OnOk result ((mute self.new).streams.sink_faults ≡ (mute self.old).streams.sink_faults) }
        ensures host { Gives true (told_by self.old.host).streams (told_by self.new.host).streams bytes.now result }
        ensures fails { Obeys (Planned (memory self.old.host)) ((0 < (memory self.old.host).room)
            × (min (length bytes.now) (memory self.old.host).piece ≤ (memory self.old.host).room_bytes)) result }
    {
        self.host.give(bytes)
    }
}
