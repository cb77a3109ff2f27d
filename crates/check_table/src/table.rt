//! The lots that one changed byte makes, and what the checker and the plain reader say of each.
ghost use Rattle.std.specs.Prelude.{◌≡◌, ◌<◌, ◌≤◌, length};

use crate::bytes::{BLOCKS, SUB};
use crate::lot::lot;
use crate::plain::{Reading, read_plainly};
use disk_mem::MemHost;
use ice_base::{Block, Disk, Rule};
use ice_check::{CheckFault, Summary, check};
use ice_keep::ThroughKeep;
use std::io;

/// How often each rule was named, and how many lots were sound, were damaged, and were seen differently.
#[derive(Clone, Copy, Drop)]
pub(crate) struct Tally {
    names: [u32; 16],
    pub sound: u32,
    pub damaged: u32,
    pub apart: u32,
}

impl Tally {
    pub fn new() -> Tally {
        Tally {
            names: [0; 16],
            sound: 0,
            damaged: 0,
            apart: 0,
        }
    }

    /// How often a rule was named.
    pub fn named(&self, rule: Rule) -> u32 {
        self.names.get(rule as usize).copied().unwrap_or(0)
    }

    fn count(&mut self, answer: &Result<Summary, CheckFault>) {
        match answer {
            Ok(_) => self.sound = self.sound.saturating_add(1),
            Err(CheckFault::Damaged(rule)) => {
                self.damaged = self.damaged.saturating_add(1);
                if let Some(n) = self.names.get_mut(*rule as usize) {
                    *n = n.saturating_add(1);
                }
            }
            Err(CheckFault::Disk) => {}
        }
    }
}

/// Whether the plain reading allows the answer: the same sums where no rule is broken, else one of the rules that may be named.
fn agree(answer: &Result<Summary, CheckFault>, reading: &Reading) -> bool {
    match answer {
        Ok(sums) => {
            reading.is_sound()
                && sums.blocks == reading.blocks
                && sums.nodes == reading.nodes
                && sums.done == reading.done
        }
        Err(CheckFault::Damaged(rule)) => reading.may_name(*rule),
        Err(CheckFault::Disk) => false,
    }
}

/// Whether the checker and the plain reader agree on the lot.
pub(crate) fn compare(host: &mut MemHost, tally: &mut Tally) -> bool {
    if host.blocks() != BLOCKS {
        return false;
    }
    let answer = check(&mut ThroughKeep::new(), host, &lot());
    tally.count(&answer);
    let same = agree(&answer, &read_plainly(host));
    if !same {
        tally.apart = tally.apart.saturating_add(1);
    }
    same
}

/// Whether the two agree on the lot with these bytes in one block, in place of its own.
fn compare_with(
    host: &mut MemHost,
    at: u32,
    block: &Block,
    own: &Block,
    tally: &mut Tally,
) -> bool {
    if at >= host.blocks() || host.write(at, block).is_err() {
        return false;
    }
    let same = compare(host, tally);
    same && at < host.blocks() && host.write(at, own).is_ok()
}

/// Other values for a byte. Some of them can be the byte itself, or one another.
fn values(byte: u8) -> [u8; 6] {
    [0, 1, byte.wrapping_add(1), byte ^ 1, byte ^ 0x80, 0xff]
}

/// Whether a byte is changed: it or one of those shortly before it isn't 0. In the block of the inodes 24 to 31, which has those
/// of files and of directories with and without blocks, these are all bytes of their pointers.
fn is_changed(at: u32, block: &Block, place: usize) -> bool
    requires { place < 1024 }
{
    let reach = if at == 548 { 60 } else { 8 };
    block[place.saturating_sub(reach)..place + 1]
        .iter()
        .any(|b| *b != 0)
}

/// Compares on the lots with one byte of a block changed.
fn compare_byte(
    rt: &HostRuntime,
    host: &mut MemHost,
    at: u32,
    own: &Block,
    place: usize,
    tally: &mut Tally,
) -> io::Result<()>
    requires { place < 1024 }
{
    let all = values(own[place]);
    for k in 0..all.len() {
        let value = all[k];
        if value == own[place] || all[..k].contains(&value) {
            continue;
        }
        let mut block = *own;
        block[place] = value;
        if !compare_with(host, at, &block, own, tally) {
            println!(rt; "apart: byte {place} of block {at} is {value}")?;
        }
    }
    Ok(())
}

/// Compares on the lots with one byte changed, block after block.
pub(crate) fn compare_all(
    rt: &HostRuntime,
    host: &mut MemHost,
    tally: &mut Tally,
) -> io::Result<()> {
    for at in SUB..BLOCKS {
        if at >= host.blocks() {
            continue;
        }
        let own = *host.block(at);
        for place in 0..1024usize {
            if is_changed(at, &own, place) {
                compare_byte(rt, host, at, &own, place, tally)?;
            }
        }
    }
    Ok(())
}
