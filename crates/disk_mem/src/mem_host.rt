//! A host in memory that tells what it holds.
ghost use Rattle.std.specs.Prelude.{◌≡◌, ◌⊎◌, ◌<◌, ◌+◌, ◌-◌, ◌*◌, ◌≤◌, ◌^◌, ◌↔◌, ℕ, List, true, false, min, if◌then◌else◌, ◌==◌, is_ok, length, take, drop, slice_set, slice_index_or, replicate, ◌++◌, [], ◌∷◌, OnOk, OnErr, IfOk, IsErr, IsTrue, vec_len, vec_capacity};
ghost use Rattle.ice_base.specs.Disk.{DiskState, block, Nowhere, HasCause, ReadCounts, WriteCounts, BarrierCounts};
ghost use Rattle.ice_base.specs.Frames.{Within};
ghost use Rattle.disk_mem.specs.Memory.{past_of, Linked};

use crate::blocks::zero_blocks;
use crate::crash::{Replay, given_by};
use crate::flags::{clear, no_flags};
use crate::record::{add, note_failed, record};
use crate::step::Step;
use ice_base::{Block, Disk, DiskFault, Host, SinkFault, SourceFault};
use std::alloc::{AllocError, Global};

/// A disk of blocks in memory with a script to take and an output to give to. Calls of the disk and the host
/// are numbered from 0, and those that were given to `fail_at` fail.
#[derive(Drop)]
pub struct MemHost {
    alloc: Global,
    blocks: Vec<Block>,
    loose: Vec<bool>,
    first: Vec<Block>,
    steps: Vec<Step>,
    remembered: u64,
    output: Vec<u8>,
    script: Vec<u8>,
    taken: usize,
    piece: usize,
    failing: Vec<u64>,
    room: usize,
    room_bytes: usize,
    calls: u64,
    reads: u64,
    writes: u64,
    barriers: u64,
    disk_faults: u64,
    source_faults: u64,
    sink_faults: u64,
    ghost linked: { Linked (past_of first.items steps.items) calls remembered blocks.items loose.items output.items },
    ghost counts: { (reads ≤ calls) × (writes ≤ calls) × (barriers ≤ calls) },
    ghost few: { length blocks.items < 2 ^ 32 },
    ghost pieces: { 0 < piece },
    ghost source: { taken ≤ length script.items },
    ghost records: { vec_len steps + room ≤ vec_capacity steps },
    ghost records_given: { vec_len output + room_bytes ≤ vec_capacity output },
    ghost start: { calls ≡ 0 → steps.items ≡ [] },
}

impl MemHost {
    ghost use Rattle.disk_mem.specs.Memory.{Memory, IsNew, Planned, fresh_state};
    ghost use Rattle.disk_mem.specs.MemHostView.{memory, left_by};
    ghost use Rattle.disk_mem.specs.Crash.{LeavesFilled};

    /// A host of so many blocks of zeros.
    pub fn new(alloc: Global, blocks: u32) -> Result<MemHost, AllocError>
        ensures { IfOk result (λ m. IsNew (replicate blocks (replicate 1024 0)) (memory m)) }
    {
        let blocks = zero_blocks(alloc, blocks as usize)?;
        MemHost::over(alloc, blocks)
    }

    // A host of these blocks.
    fn over(alloc: Global, blocks: Vec<Block>) -> Result<MemHost, AllocError>
        requires { length blocks.items < 2 ^ 32 }
        ensures { IfOk result (λ m. IsNew blocks.items (memory m)) }
    {
        let first = Vec::from_slice(alloc, &blocks)?;
        let loose = no_flags(alloc, blocks.len())?;
        Ok(MemHost {
            alloc,
            blocks,
            loose,
            first,
            steps: Vec::new(alloc),
            remembered: u64::MAX,
            output: Vec::new(alloc),
            script: Vec::new(alloc),
            taken: 0,
            piece: 4096,
            failing: Vec::new(alloc),
            room: 0,
            room_bytes: 0,
            calls: 0,
            reads: 0,
            writes: 0,
            barriers: 0,
            disk_faults: 0,
            source_faults: 0,
            sink_faults: 0,
        })
    }

    /// Reserves space for the records of so many further calls and so many further bytes given.
    pub fn reserve(&mut self, calls: u32, bytes: u32) -> Result<(), AllocError>
        ensures calls { OnOk result (calls ≤ (memory self.new).room) }
        ensures bytes { OnOk result (bytes ≤ (memory self.new).room_bytes) }
        ensures rest { memory self.new
            ≡ record (memory self.old) { room = (memory self.new).room; room_bytes = (memory self.new).room_bytes } }
        ensures less { ((memory self.old).room ≤ (memory self.new).room) × ((memory self.old).room_bytes ≤ (memory self.new).room_bytes) }
        ensures same { OnErr result (memory self.new ≡ memory self.old) }
    {
        let calls = (calls as usize).max(self.room);
        let bytes = (bytes as usize).max(self.room_bytes);
        self.steps.reserve(calls)?;
        self.output.reserve(bytes)?;
        self.room = calls;
        self.room_bytes = bytes;
        Ok(())
    }

    /// Sets the bytes that are left to take.
    pub fn set_script(&mut self, bytes: &[u8]) -> Result<(), AllocError>
        ensures set { OnOk result (memory self.new ≡ record (memory self.old) { intake = bytes.now }) }
        ensures same { OnErr result (memory self.new ≡ memory self.old) }
    {
        self.script = Vec::from_slice(self.alloc, bytes)?;
        self.taken = 0;
        Ok(())
    }

    /// A take or a give moves at most n bytes from now on.
    pub fn set_piece(&mut self, n: usize)
        requires { 0 < n }
        ensures { memory self.new ≡ record (memory self.old) { piece = n } }
    {
        self.piece = n;
    }

    /// The call of that number will fail.
    pub fn fail_at(&mut self, call: u64) -> Result<(), AllocError>
        ensures set { OnOk result (memory self.new ≡ record (memory self.old) { failing = (memory self.old).failing ++ call ∷ [] }) }
        ensures same { OnErr result (memory self.new ≡ memory self.old) }
    {
        self.failing.push(call)?;
        Ok(())
    }

    /// Sets a block before the first call. It is settled.
    pub fn set_block(&mut self, at: u32, from: &Block)
        requires inside { at < length (memory self.old).blocks }
        requires early { (memory self.old).calls ≡ 0 }
        ensures blocks { (memory self.new).blocks ≡ slice_set (memory self.old).blocks at from.now }
        ensures past { (t : ℕ) → (memory self.new).past t ≡ fresh_state (memory self.new).blocks }
        ensures loose { (k : ℕ) → (memory self.new).loose k ≡ false }
        ensures rest { memory self.new ≡ record (memory self.old) { blocks = (memory self.new).blocks; past = (memory self.new).past } }
    {
        self.blocks[at as usize] = *from;
        self.first[at as usize] = *from;
    }

    /// A block as it reads.
    pub fn block(&self, at: u32) -> &Block
        requires { at < length (memory self.now).blocks }
        ensures { result.now ≡ block (memory self.now).blocks at }
    {
        &self.blocks[at as usize]
    }

    /// The bytes given so far.
    pub fn output(&self) -> &[u8]
        ensures { result.now ≡ (memory self.now).output }
    {
        &self.output
    }

    /// The number of calls so far.
    pub fn calls(&self) -> u64
        ensures { result ≡ (memory self.now).calls }
    {
        self.calls
    }

    /// The number of good reads so far.
    pub fn reads(&self) -> u64
        ensures { result ≡ (memory self.now).reads }
    {
        self.reads
    }

    /// The number of good writes so far.
    pub fn writes(&self) -> u64
        ensures { result ≡ (memory self.now).writes }
    {
        self.writes
    }

    /// The number of good barriers so far.
    pub fn barriers(&self) -> u64
        ensures { result ≡ (memory self.now).barriers }
    {
        self.barriers
    }

    /// The bytes given by the first `moment` calls.
    pub fn output_at(&self, moment: u64) -> &[u8]
        requires { moment ≤ (memory self.now).calls }
        ensures given { result.now ≡ take ((memory self.now).past moment).given (memory self.now).output }
        ensures whole { moment ≡ (memory self.now).calls → result.now ≡ (memory self.now).output }
    {
        &self.output[..given_by(&self.steps, moment)]
    }

    /// A host whose image is one that a crash after the first `moment` calls may leave, and otherwise as `new` makes it.
    /// A loose block has its last settled bytes for fill 0, its newest bytes for fill 1, zeros for fill 2, 0xFF for
    /// fill 3, and else the low byte of 31 fill + 7 at + 13 j at each j.
    pub fn crashed(&self, alloc: Global, moment: u64, fill: u64) -> Result<MemHost, AllocError>
        requires { moment ≤ (memory self.now).calls }
        ensures new { IfOk result (λ m. IsNew (memory m).blocks (memory m)) }
        ensures left { IfOk result (λ m. left_by self.now moment (memory m).blocks
            (take ((memory self.now).past moment).given (memory self.now).output)) }
        ensures filled { IfOk result (λ m. LeavesFilled fill ((memory self.now).past moment) (memory m).blocks) }
        // Where the record of a failed write found no memory, there is none for a crash after it.
        ensures remembered { OnOk result (moment ≤ (memory self.now).remembered) }
    {
        if self.remembered < moment {
            return Err(AllocError);
        }
        let mut replay = Replay::new(alloc, &self.first)?;
        replay.make_all(&self.steps, moment);
        replay.fill_loose(fill);
        let Replay {
            blocks,
            settled: _,
            loose: _,
        } = replay;
        let host = MemHost::over(alloc, blocks)?;
        Ok(host)
    }

    // Whether the next call is to fail.
    fn fails(&self) -> bool
        ensures planned { IsTrue result ↔ Planned (memory self.now) }
        ensures low { result ≡ false → self.now.calls + 1 < 2 ^ 64 }
    {
        if self.calls == u64::MAX {
            return true;
        }
        self.failing.contains(&self.calls)
    }
}

impl Disk for MemHost {
    ghost use Rattle.std.specs.Prelude.{refl};
    ghost use Rattle.disk_mem.specs.Memory.{Memory, Planned, Obeys, KeepsPast, Present, settled_of, Ticks, Spends, next, holds_now, may_leave_now};
    ghost use Rattle.disk_mem.specs.MemHostView.{memory, told_by, left_by};

    ghost state = { told_by };

    ghost left = { left_by };

    ghost agrees_now = { λ m image out left.
        let is = holds_now (past_of m.first.items m.steps.items) m.calls m.remembered m.blocks.items m.loose.items
        m.output.items m.linked image out left in
        (record { count = is.0; same = λ k inside flag. is.1 k flag }, is.2) };

    ghost counts_now = { λ m t tells le. may_leave_now (past_of m.first.items m.steps.items) m.calls m.remembered
        m.blocks.items m.loose.items m.output.items m.linked t le };

    ghost small = { λ m. m.few };

    ghost whole = { λ m tells. refl };

    fn blocks(&self) -> u32 {
        self.blocks.len() as u32
    }

    fn read(&mut self, at: u32, into: &mut Block) -> Result<(), DiskFault>
        requires { at < (told_by self.old).size }
        ensures within { Within told_by left_by Nowhere self.old self.new }
        ensures cause { HasCause (told_by self.old) (told_by self.new) result }
        ensures calm { OnOk result ((told_by self.new).faults ≡ (told_by self.old).faults) }
        ensures bytes { (told_by self.old).tells ≡ true → OnOk result (into.new ≡ block (told_by self.old).now at) }
        ensures counts { (told_by self.old).tells ≡ true → ReadCounts (told_by self.old) (told_by self.new) }
        // A read needs no record.
        ensures fails { IsErr result ↔ Planned (memory self.old) }
        ensures present { Present (memory self.new) }
        ensures settled { settled_of (memory self.new) ≡ settled_of (memory self.old) }
        ensures rest { memory self.new ≡ record (memory self.old) {
          calls = next (memory self.old).calls;
          reads = if is_ok result then (memory self.old).reads + 1 else (memory self.old).reads;
          disk_faults = if is_ok result then (memory self.old).disk_faults else next (memory self.old).disk_faults;
        } }
    {
        let fails = self.fails();
        self.calls = self.calls.saturating_add(1);
        if fails {
            self.disk_faults = self.disk_faults.saturating_add(1);
            return Err(DiskFault::Failed);
        }
        *into = self.blocks[at as usize];
        self.reads += 1;
        Ok(())
    }

    fn write(&mut self, at: u32, from: &Block) -> Result<(), DiskFault>
        requires { at < (told_by self.old).size }
        ensures within { Within told_by left_by (λ k. k ≡ at) self.old self.new }
        ensures cause { HasCause (told_by self.old) (told_by self.new) result }
        ensures calm { OnOk result ((told_by self.new).faults ≡ (told_by self.old).faults) }
        ensures bytes { (told_by self.old).tells ≡ true → OnOk result (block (told_by self.new).now at ≡ from.now) }
        ensures counts { (told_by self.old).tells ≡ true → WriteCounts at (is_ok result) (told_by self.old) (told_by self.new) }
        ensures fails { Obeys (Planned (memory self.old)) (0 < (memory self.old).room) result }
        ensures kept { OnErr result ((memory self.new).blocks ≡ (memory self.old).blocks) }
        ensures faults { (memory self.new).disk_faults
            ≡ (if is_ok result then (memory self.old).disk_faults else next (memory self.old).disk_faults) }
        ensures ticks { Ticks (memory self.old) (memory self.new) }
        ensures spends { Spends 0 (memory self.old) (memory self.new) }
        ensures past { KeepsPast (memory self.old) (memory self.new) }
        ensures present { Present (memory self.new) }
        // The past is remembered whole, but for a failed write whose record finds no memory.
        ensures remembered { 0 < (memory self.old).room → (memory self.new).remembered ≡ (memory self.old).remembered }
        ensures remembered_good { OnOk result ((memory self.new).remembered ≡ (memory self.old).remembered) }
        ensures earlier { min (memory self.old).remembered (memory self.old).calls ≤ (memory self.new).remembered }
        ensures settled { settled_of (memory self.new) ≡ settled_of (memory self.old) }
    {
        let number = self.calls;
        let fails = self.fails();
        self.calls = self.calls.saturating_add(1);
        self.loose[at as usize] = true;
        if fails {
            self.disk_faults = self.disk_faults.saturating_add(1);
            note_failed(
                &mut self.steps,
                &mut self.room,
                &mut self.remembered,
                number,
                at,
            );
            return Err(DiskFault::Failed);
        }
        match record(
            &mut self.steps,
            &mut self.room,
            Step::Write(number, at, *from),
        ) {
            Ok(()) => {
                self.blocks[at as usize] = *from;
                self.writes += 1;
                Ok(())
            }
            Err(_) => {
                self.disk_faults = self.disk_faults.saturating_add(1);
                note_failed(
                    &mut self.steps,
                    &mut self.room,
                    &mut self.remembered,
                    number,
                    at,
                );
                Err(DiskFault::Failed)
            }
        }
    }

    fn barrier(&mut self) -> Result<(), DiskFault>
        ensures within { Within told_by left_by Nowhere self.old self.new }
        ensures cause { HasCause (told_by self.old) (told_by self.new) result }
        ensures calm { OnOk result ((told_by self.new).faults ≡ (told_by self.old).faults) }
        ensures counts { (told_by self.old).tells ≡ true → BarrierCounts (is_ok result) (told_by self.old) (told_by self.new) }
        ensures fails { Obeys (Planned (memory self.old)) (0 < (memory self.old).room) result }
        ensures faults { (memory self.new).disk_faults
            ≡ (if is_ok result then (memory self.old).disk_faults else next (memory self.old).disk_faults) }
        ensures kept { (memory self.new).blocks ≡ (memory self.old).blocks }
        ensures ticks { Ticks (memory self.old) (memory self.new) }
        ensures spends { Spends 0 (memory self.old) (memory self.new) }
        ensures past { KeepsPast (memory self.old) (memory self.new) }
        ensures present { Present (memory self.new) }
        ensures remembered { (memory self.new).remembered ≡ (memory self.old).remembered }
        ensures settles { OnOk result (settled_of (memory self.new) ≡ (memory self.new).blocks) }
        ensures settled { OnErr result (settled_of (memory self.new) ≡ settled_of (memory self.old)) }
    {
        let number = self.calls;
        let fails = self.fails();
        self.calls = self.calls.saturating_add(1);
        if fails {
            self.disk_faults = self.disk_faults.saturating_add(1);
            return Err(DiskFault::Failed);
        }
        match record(&mut self.steps, &mut self.room, Step::Barrier(number)) {
            Ok(()) => {
                clear(&mut self.loose);
                self.barriers += 1;
                Ok(())
            }
            Err(_) => {
                self.disk_faults = self.disk_faults.saturating_add(1);
                Err(DiskFault::Failed)
            }
        }
    }
}

impl Host for MemHost {
    ghost use Rattle.ice_base.specs.Disk.{Rose};
    ghost use Rattle.ice_base.specs.Host.{SameDisk, Leaves, Takes, Gives, FirstOf, moved_count};
    ghost use Rattle.disk_mem.specs.Memory.{Memory, Planned, Obeys, KeepsPast, Present, settled_of, Ticks, Spends, next};
    ghost use Rattle.disk_mem.specs.MemHostView.{memory, told_by, left_by};

    fn take(&mut self, into: &mut [u8]) -> Result<usize, SourceFault>
        requires { 0 < length into.old }
        ensures disk { SameDisk (told_by self.old) (told_by self.new) }
        ensures ticks { (told_by self.old).tells ≡ true → Rose (told_by self.old).clock (told_by self.new).clock }
        ensures leaves { Leaves told_by left_by (λ out. out ≡ (told_by self.old).streams.aside) self.old self.new }
        ensures takes { Takes (told_by self.old).tells (told_by self.old).streams (told_by self.new).streams into.new result }
        ensures calm { OnOk result ((told_by self.new).streams.source_faults ≡ (told_by self.old).streams.source_faults) }
        // A take needs no record.
        ensures fails { IsErr result ↔ Planned (memory self.old) }
        ensures moves { IfOk result (λ n. n ≡ min (min (length into.old) (memory self.old).piece) (length (memory self.old).intake)) }
        ensures present { Present (memory self.new) }
        ensures settled { settled_of (memory self.new) ≡ settled_of (memory self.old) }
        ensures rest { memory self.new ≡ record (memory self.old) {
          calls = next (memory self.old).calls;
          intake = (memory self.new).intake;
          source_faults = if is_ok result then (memory self.old).source_faults else next (memory self.old).source_faults;
        } }
    {
        let fails = self.fails();
        self.calls = self.calls.saturating_add(1);
        if fails {
            self.source_faults = self.source_faults.saturating_add(1);
            return Err(SourceFault::Failed);
        }
        let left = self.script.len() - self.taken;
        let n = into.len().min(self.piece).min(left);
        let (front, _) = into.split_at_mut(n);
        front.copy_from_slice(&self.script[self.taken..self.taken + n]);
        self.taken += n;
        Ok(n)
    }

    fn give(&mut self, bytes: &[u8]) -> Result<usize, SinkFault>
        requires { 0 < length bytes.now }
        ensures disk { SameDisk (told_by self.old) (told_by self.new) }
        ensures ticks { (told_by self.old).tells ≡ true → Rose (told_by self.old).clock (told_by self.new).clock }
        ensures leaves { Leaves told_by left_by (FirstOf (told_by self.old).streams.aside bytes.now (moved_count result)) self.old self.new }
        ensures gives { Gives (told_by self.old).tells (told_by self.old).streams (told_by self.new).streams bytes.now result }
        ensures calm { OnOk result ((told_by self.new).streams.sink_faults ≡ (told_by self.old).streams.sink_faults) }
        ensures fails { Obeys (Planned (memory self.old)) ((0 < (memory self.old).room)
            × (min (length bytes.now) (memory self.old).piece ≤ (memory self.old).room_bytes)) result }
        ensures moves { IfOk result (λ n. n ≡ min (length bytes.now) (memory self.old).piece) }
        ensures faults { (memory self.new).sink_faults
            ≡ (if is_ok result then (memory self.old).sink_faults else next (memory self.old).sink_faults) }
        ensures counts { Ticks (memory self.old) (memory self.new) }
        ensures spends { Spends (moved_count result) (memory self.old) (memory self.new) }
        ensures past { KeepsPast (memory self.old) (memory self.new) }
        ensures present { Present (memory self.new) }
        ensures remembered { (memory self.new).remembered ≡ (memory self.old).remembered }
        ensures settled { settled_of (memory self.new) ≡ settled_of (memory self.old) }
    {
        let number = self.calls;
        let fails = self.fails();
        self.calls = self.calls.saturating_add(1);
        if fails {
            self.sink_faults = self.sink_faults.saturating_add(1);
            return Err(SinkFault::Failed);
        }
        let n = bytes.len().min(self.piece);
        match add(
            &mut self.output,
            &mut self.steps,
            &mut self.room,
            &mut self.room_bytes,
            number,
            &bytes[..n],
        ) {
            Ok(()) => Ok(n),
            Err(_) => {
                self.sink_faults = self.sink_faults.saturating_add(1);
                Err(SinkFault::Failed)
            }
        }
    }
}
