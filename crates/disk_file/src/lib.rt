//! A host over a real file and the standard streams: the trusted edge. It tells nothing of its content.
#![tactic(auto)]

mod sink;
mod streams;
mod whole;

ghost use Rattle.std.specs.Prelude.{◌≡◌, ◌≢◌, ◌≤◌, ◌<◌, ◌^◌, ◌↔◌, [], true, false, length, is_ok, IfOk, IfSome, IsErr, OnErr, OnOk};
ghost use Rattle.std.specs.IoError.{error_kind};
ghost use Rattle.ice_base.specs.Disk.{block, Rose, Nowhere, HasCause, WriteCounts, BarrierCounts};
ghost use Rattle.ice_base.specs.Frames.{Within};
ghost use Rattle.ice_base.specs.Host.{SameDisk, GaveOnly, Leaves, Takes, Gives, FirstOf, moved_count};
ghost use Rattle.disk_file.specs.Known.{SameKnown, SameBut, silent_state, silent_left};

use crate::sink::Sink;
use crate::streams::take_piece;
use crate::whole::{BLOCK_BYTES, read_whole, write_whole};
use ice_base::{Block, Disk, DiskFault, Host, SinkFault, SourceFault, Status};
use std::fs::{File, OpenOptions};
use std::io::{self, ErrorKind, Stdin, Stdout};
use std::marker::Model;
use std::os::fd::{AsRawFd, RawFd};

/// Why a file can't serve as a host.
#[derive(Clone, Copy, Debug, PartialEq, Eq)]
pub enum OpenFault {
    /// The system named want of memory.
    Memory = 1,
    /// Opening or extending it failed otherwise.
    Failed,
}

/// The descriptors of the standard streams lie below this one.
const STREAMS: RawFd = 3;

/// How many given bytes are held back at most.
const HELD: usize = 65536;

/// A file of blocks of 1,024 bytes with standard input and standard output. It counts the faults of each kind.
///
/// Given bytes are held back until there is no more room, and sent before each take, write and barrier. So all that was given
/// before a change of the disk has been sent by then, and an end of the machine or the process loses at most the bytes that
/// were given since the disk last changed: what it leaves is what it would have left at an earlier moment. Where sending
/// fails, each later give, write and barrier is refused, the disk untouched, so that it never runs ahead of what was sent.
#[derive(Drop)]
pub struct FileHost {
    file: Option<File>,
    blocks: u32,
    input: Stdin,
    output: Sink<Stdout>,
    disk_faults: u64,
    source_faults: u64,
    sink_faults: u64,
    ghost fits: { blocks < 2 ^ 32 },
}

impl Model for FileHost {
    ghost use Rattle.std.specs.Io.Buffered.{writer_buffer};
    ghost use Rattle.disk_file.specs.Known.{Known};

    ghost Value = { Known };

    ghost view = { λ h. record {
      blocks = h.blocks;
      fits = h.fits;
      disk_faults = h.disk_faults;
      source_faults = h.source_faults;
      sink_faults = h.sink_faults;
      held = writer_buffer h.output.output;
      lost = h.output.lost;
    } };
}

fn open_fault(error: io::Error) -> OpenFault
    ensures memory { error_kind error ≡ ErrorKind.OutOfMemory → result ≡ OpenFault.Memory }
    ensures failed { error_kind error ≢ ErrorKind.OutOfMemory → result ≡ OpenFault.Failed }
{
    match error.kind() {
        ErrorKind::OutOfMemory => OpenFault::Memory,
        _ => OpenFault::Failed,
    }
}

/// Opens the file, makes it and extends it with zeros where blocks are asked for, and says how many whole blocks it has.
/// Where a standard stream is closed the file would take its number, and replies would go into it: that is refused.
fn open(rt: &HostRuntime, name: &str, least: u32) -> io::Result<(File, u32)>
    ensures { IfOk result (λ opened. least ≤ opened.1) }
{
    let file = OpenOptions::new()
        .read(true)
        .write(true)
        .create(least > 0)
        .open(rt, name)?;
    if file.as_raw_fd() < STREAMS {
        return Err(ErrorKind::Unsupported.into());
    }
    let wanted = u64::from(least) * BLOCK_BYTES;
    if file.metadata()?.len() < wanted {
        file.set_len(wanted)?;
    }
    let whole = file.metadata()?.len() / BLOCK_BYTES;
    let blocks = u32::try_from(whole).unwrap_or(u32::MAX);
    if blocks < least {
        return Err(ErrorKind::UnexpectedEof.into());
    }
    Ok((file, blocks))
}

impl FileHost {
    /// Opens the file for reading and writing. Where `least` is above 0 it is made if it isn't there, and extended with zeros to `least` blocks.
    /// Its blocks are the whole blocks of the file, at most 2^32 - 1. Why it refuses is the system's word, but that Memory also
    /// comes, with the file as it was, where there is no memory for the bytes to be held back.
    pub fn attach(rt: &HostRuntime, name: &str, least: u32) -> Result<FileHost, OpenFault>
        ensures least { IfOk result (λ h. least ≤ h.blocks) }
        ensures counts { IfOk result (λ h. (h.disk_faults ≡ 0) × (h.source_faults ≡ 0) × (h.sink_faults ≡ 0)) }
        ensures held { IfOk result (λ h. (h.held ≡ []) × (h.lost ≡ false)) }
    {
        let Ok(output) = Sink::new(rt.alloc(), HELD, rt.stdout()) else {
            return Err(OpenFault::Memory);
        };
        match open(rt, name, least) {
            Ok((file, blocks)) => Ok(FileHost {
                file: Some(file),
                blocks,
                input: rt.stdin(),
                output,
                disk_faults: 0,
                source_faults: 0,
                sink_faults: 0,
            }),
            Err(error) => Err(open_fault(error)),
        }
    }

    /// A host of no blocks, for words that name no image. It holds nothing back.
    pub fn missing(rt: &HostRuntime) -> FileHost
        ensures blocks { result.blocks ≡ 0 }
        ensures counts { (result.disk_faults ≡ 0) × (result.source_faults ≡ 0) × (result.sink_faults ≡ 0) }
        ensures held { (result.held ≡ []) × (result.lost ≡ false) }
    {
        FileHost {
            file: None,
            blocks: 0,
            input: rt.stdin(),
            output: Sink::new(rt.alloc(), 0, rt.stdout()).unwrap(),
            disk_faults: 0,
            source_faults: 0,
            sink_faults: 0,
        }
    }

    /// Sends what is held back, at the end of a run. Err: that failed, now or before, so that not all that was given was sent.
    pub fn finish(&mut self) -> Result<(), SinkFault>
        ensures sent { OnOk result (self.new.held ≡ []) }
        ensures calm { OnOk result (self.new.sink_faults ≡ self.old.sink_faults) }
        ensures cause { OnErr result (Rose self.old.sink_faults self.new.sink_faults) }
        ensures lost { IsErr result ↔ self.new.lost ≡ true }
        ensures before { self.old.lost ≡ true → self.new.lost ≡ true }
        ensures disk { SameDisk (silent_state self.old) (silent_state self.new) }
        ensures only { GaveOnly (silent_state self.old).streams (silent_state self.new).streams }
    {
        if self.output.send() {
            return Ok(());
        }
        Err(self.count_sink_fault())
    }

    /// The status of a run once all replies that were held back are sent. Where that fails the run ended by it: whatever else it
    /// met came after those replies.
    pub fn ended(&mut self, status: Status) -> Status
        ensures sent { self.new.lost ≡ false → (result ≡ status) × (self.new.held ≡ []) }
        ensures lost { self.new.lost ≡ true → result ≡ Status.Sink }
    {
        match self.finish() {
            Ok(()) => status,
            Err(_) => Status::Sink,
        }
    }

    /// Writes a block of the file, with nothing held back. Says whether that was done.
    fn write_file(&mut self, at: u32, from: &Block) -> bool
        requires sent { self.old.held ≡ [] }
        requires kept { self.old.lost ≡ false }
        ensures same { SameKnown self.old self.new }
    {
        match &mut self.file {
            Some(file) => write_whole(file, at, from).is_ok(),
            None => false,
        }
    }

    /// Syncs the file, with nothing held back. Says whether that was done.
    fn sync_file(&mut self) -> bool
        requires sent { self.old.held ≡ [] }
        requires kept { self.old.lost ≡ false }
        ensures same { SameKnown self.old self.new }
    {
        match &self.file {
            Some(file) => file.sync_all().is_ok(),
            None => true,
        }
    }

    /// Takes a piece of the input, with nothing held back that can still be sent.
    fn take_input(&mut self, into: &mut [u8]) -> Option<usize>
        requires room { 0 < length into.old }
        requires sent { self.old.lost ≡ false → self.old.held ≡ [] }
        ensures same { SameKnown self.old self.new }
        ensures count { IfSome result (λ n. n ≤ length into.new) }
    {
        take_piece(&mut self.input, into)
    }

    fn count_disk_fault(&mut self) -> DiskFault
        ensures rose { Rose self.old.disk_faults self.new.disk_faults }
        ensures grows { self.old.disk_faults ≤ self.new.disk_faults }
        ensures rest { SameBut self.old self.new }
    {
        self.disk_faults = self.disk_faults.saturating_add(1);
        DiskFault::Failed
    }

    fn count_sink_fault(&mut self) -> SinkFault
        ensures rose { Rose self.old.sink_faults self.new.sink_faults }
        ensures lost { self.new.lost ≡ self.old.lost }
        ensures disk { SameDisk (silent_state self.old) (silent_state self.new) }
        ensures only { GaveOnly (silent_state self.old).streams (silent_state self.new).streams }
    {
        self.sink_faults = self.sink_faults.saturating_add(1);
        SinkFault::Failed
    }
}

impl Disk for FileHost {
    ghost state = { silent_state };

    ghost left = { silent_left };

    ghost agrees_now = { λ h image out left. absurd left };

    ghost counts_now = { λ h t told le. Prim.cc };

    ghost small = { λ h. h.fits };

    ghost whole = { λ h told. Prim.cc };

    fn blocks(&self) -> u32 {
        self.blocks
    }

    fn read(&mut self, at: u32, into: &mut Block) -> Result<(), DiskFault> {
        let done = match &mut self.file {
            Some(file) => read_whole(file, at, into).is_ok(),
            None => false,
        };
        if done {
            return Ok(());
        }
        Err(self.count_disk_fault())
    }

    fn write(&mut self, at: u32, from: &Block) -> Result<(), DiskFault>
        requires { at < (silent_state self.old).size }
        ensures within { Within silent_state silent_left (λ k. k ≡ at) self.old self.new }
        ensures cause { HasCause (silent_state self.old) (silent_state self.new) result }
        ensures calm { OnOk result ((silent_state self.new).faults ≡ (silent_state self.old).faults) }
        ensures bytes { (silent_state self.old).tells ≡ true → OnOk result (block (silent_state self.new).now at ≡ from.now) }
        ensures counts { (silent_state self.old).tells ≡ true
            → WriteCounts at (is_ok result) (silent_state self.old) (silent_state self.new) }
        ensures sent { self.new.lost ≡ false → self.new.held ≡ [] }
        ensures lost { OnOk result (self.new.lost ≡ false) }
        ensures before { self.old.lost ≡ true → self.new.lost ≡ true }
    {
        let may_write = self.output.send();
        if !may_write {
            return Err(self.count_disk_fault());
        }
        if self.write_file(at, from) {
            return Ok(());
        }
        Err(self.count_disk_fault())
    }

    fn barrier(&mut self) -> Result<(), DiskFault>
        ensures within { Within silent_state silent_left Nowhere self.old self.new }
        ensures cause { HasCause (silent_state self.old) (silent_state self.new) result }
        ensures calm { OnOk result ((silent_state self.new).faults ≡ (silent_state self.old).faults) }
        ensures counts { (silent_state self.old).tells ≡ true
            → BarrierCounts (is_ok result) (silent_state self.old) (silent_state self.new) }
        ensures sent { self.new.lost ≡ false → self.new.held ≡ [] }
        ensures lost { OnOk result (self.new.lost ≡ false) }
        ensures before { self.old.lost ≡ true → self.new.lost ≡ true }
    {
        let may_sync = self.output.send();
        if !may_sync {
            return Err(self.count_disk_fault());
        }
        if self.sync_file() {
            return Ok(());
        }
        Err(self.count_disk_fault())
    }
}

impl Host for FileHost {
    fn take(&mut self, into: &mut [u8]) -> Result<usize, SourceFault>
        requires { 0 < length into.old }
        ensures disk { SameDisk (silent_state self.old) (silent_state self.new) }
        ensures ticks { (silent_state self.old).tells ≡ true → Rose (silent_state self.old).clock (silent_state self.new).clock }
        ensures leaves { Leaves silent_state silent_left (λ out. out ≡ (silent_state self.old).streams.aside) self.old self.new }
        ensures takes { Takes (silent_state self.old).tells (silent_state self.old).streams (silent_state self.new).streams into.new result }
        ensures calm { OnOk result ((silent_state self.new).streams.source_faults ≡ (silent_state self.old).streams.source_faults) }
        ensures sent { self.new.lost ≡ false → self.new.held ≡ [] }
        ensures before { self.old.lost ≡ true → self.new.lost ≡ true }
    {
        self.output.send();
        match self.take_input(into) {
            Some(count) => Ok(count),
            None => {
                self.source_faults = self.source_faults.saturating_add(1);
                Err(SourceFault::Failed)
            }
        }
    }

    fn give(&mut self, bytes: &[u8]) -> Result<usize, SinkFault>
        requires { 0 < length bytes.now }
        ensures disk { SameDisk (silent_state self.old) (silent_state self.new) }
        ensures ticks { (silent_state self.old).tells ≡ true → Rose (silent_state self.old).clock (silent_state self.new).clock }
        ensures leaves { Leaves silent_state silent_left
            (FirstOf (silent_state self.old).streams.aside bytes.now (moved_count result)) self.old self.new }
        ensures gives { Gives (silent_state self.old).tells (silent_state self.old).streams (silent_state self.new).streams bytes.now result }
        ensures calm { OnOk result ((silent_state self.new).streams.sink_faults ≡ (silent_state self.old).streams.sink_faults) }
        ensures lost { IsErr result ↔ self.new.lost ≡ true }
        ensures before { self.old.lost ≡ true → self.new.lost ≡ true }
    {
        match self.output.give(bytes) {
            Some(count) => Ok(count),
            None => Err(self.count_sink_fault()),
        }
    }
}

#[cfg(test)]
mod tests {
    use super::*;
    use std::fs;
    use std::test::Fail;

    // How many blocks the host of a file has, or why there is none.
    fn attached(rt: &HostRuntime, name: &str, least: u32) -> Result<u32, OpenFault> {
        match FileHost::attach(rt, name, least) {
            Ok(host) => Ok(host.blocks()),
            Err(fault) => Err(fault),
        }
    }

    #[test]
    fn a_block_reads_back_after_a_barrier(rt: HostRuntime) -> Result<(), Fail> {
        let mut host = FileHost::attach(&rt, "back", 3)?;
        assert_eq!(rt; host.blocks(), 3);
        let mut block = [0; 1024];
        for k in 0..1024 {
            block[k] = (k % 251) as u8;
        }
        host.write(2, &block)?;
        host.barrier()?;
        let mut again = [1; 1024];
        host.read(2, &mut again)?;
        assert_eq!(rt; again, block);
        host.read(1, &mut again)?;
        assert_eq!(rt; again, [0; 1024]);
        host.finish()?;
        fs::remove_file(&rt, "back")?;
        Ok(())
    }

    #[test]
    fn a_longer_file_stays_whole(rt: HostRuntime) -> Result<(), Fail> {
        let mut host = FileHost::attach(&rt, "longer", 4)?;
        assert_eq!(rt; host.blocks(), 4);
        host.write(3, &[7; 1024])?;
        let mut again = FileHost::attach(&rt, "longer", 2)?;
        assert_eq!(rt; again.blocks(), 4);
        let mut block = [0; 1024];
        again.read(3, &mut block)?;
        assert_eq!(rt; block, [7; 1024]);
        fs::remove_file(&rt, "longer")?;
        Ok(())
    }

    #[test]
    fn a_block_that_is_gone_is_a_fault(rt: HostRuntime) -> Result<(), Fail> {
        let mut host = FileHost::attach(&rt, "shorter", 3)?;
        assert_eq!(rt; host.blocks(), 3);
        OpenOptions::new()
            .write(true)
            .open(&rt, "shorter")?
            .set_len(2500)?;
        assert_eq!(rt; host.read(1, &mut [0; 1024]), Ok(()));
        assert_eq!(rt; host.read(2, &mut [0; 1024]), Err(DiskFault::Failed));
        assert_eq!(rt; attached(&rt, "shorter", 0), Ok(2));
        fs::remove_file(&rt, "shorter")?;
        Ok(())
    }

    #[test]
    fn a_file_is_made_only_where_blocks_are_asked_for(rt: HostRuntime) -> Result<(), Fail> {
        for (name, least, want) in [
            ("made", 0, Err(OpenFault::Failed)),
            ("made", 0, Err(OpenFault::Failed)),
            (".", 1, Err(OpenFault::Failed)),
            (".", 0, Err(OpenFault::Failed)),
            ("made", 2, Ok(2)),
            ("made", 0, Ok(2)),
            ("made", 3, Ok(3)),
        ] {
            assert_eq!(rt; attached(&rt, name, least), want, "{name} {least}");
        }
        fs::remove_file(&rt, "made")?;
        assert_eq!(rt; FileHost::missing(&rt).blocks(), 0);
        assert!(rt; FileHost::missing(&rt).finish().is_ok());
        Ok(())
    }

    #[test]
    fn want_of_memory_is_told_from_other_failures(rt: HostRuntime) {
        for (kind, want) in [
            (ErrorKind::OutOfMemory, OpenFault::Memory),
            (ErrorKind::NotFound, OpenFault::Failed),
            (ErrorKind::PermissionDenied, OpenFault::Failed),
        ] {
            assert_eq!(rt; open_fault(kind.into()), want);
        }
    }
}
