//! The writes of a journal: bodies and header, and the gate. None of these calls makes a barrier.
ghost use Rattle.std.specs.Prelude.{is_ok, ◌≡◌, ◌<◌, ◌≤◌, ◌+◌, ℕ, true, length, OnOk};
ghost use Rattle.ice_base.specs.Counts.{Made};
ghost use Rattle.ice_base.specs.Disk.{block, HasCause, WriteCounts};
ghost use Rattle.ice_base.specs.Frames.{Within};
ghost use Rattle.ice_layout.specs.Headers.{gate_block, is_open, header_with};
ghost use Rattle.ice_txn.specs.Sets.{addresses, holds, Differ};
ghost use Rattle.ice_journal.specs.Areas.{IsArea, NamesTargets, may_be_target, most_bodies};
ghost use Rattle.ice_journal.specs.Blocks.{IsFrom, IsBodyOf};
ghost use Rattle.ice_journal.specs.Phases.{HoldBlocks};

use crate::Area;
use ice_base::{Block, Disk, DiskFault};
use ice_layout::{Header, write_gate, write_header, write_system_header};
use ice_txn::WriteSet;

fn write_bodies<D: Disk>(disk: &mut D, area: &Area, set: &WriteSet) -> Result<(), DiskFault>
    requires { area.now.body + length set.now.entries ≤ (D.state disk.old).size }
    ensures within { Within D.state D.left (IsFrom area.now.body (length set.now.entries)) disk.old disk.new }
    ensures cause { HasCause (D.state disk.old) (D.state disk.new) result }
    ensures calm { OnOk result ((D.state disk.new).faults ≡ (D.state disk.old).faults) }
    ensures bodies { (D.state disk.old).tells ≡ true
        → OnOk result (HoldBlocks area.now.body set.now.entries (D.state disk.new).now) }
    ensures counts { (D.state disk.old).tells ≡ true
        → Made (length set.now.entries) 0 (is_ok result) (D.state disk.old) (D.state disk.new) }
{
    for i in 0..set.len() {
        disk.write(area.body + i, set.block(i))?;
    }
    Ok(())
}

/// The header of as many targets as a set has addresses.
fn header_of_set(set: &WriteSet) -> Header
    requires { length set.now.entries ≤ 240 }
    ensures header { result ≡ header_with (addresses set.now.entries) }
    ensures differ { Differ set.now.entries }
{
    let mut targets = [0; 240];
    let count = set.len();
    for i in 0..count {
        targets[i as usize] = set.address(i);
    }
    Header {
        count: count as u16,
        targets,
    }
}

fn write_names(area: &Area, set: &WriteSet, into: &mut Block)
    requires area { IsArea area.now }
    requires some { 1 ≤ length set.now.entries }
    requires few { length set.now.entries ≤ most_bodies area.now }
    requires targets { (a : ℕ) → holds set.now.entries a ≡ true → may_be_target area.now a ≡ true }
    ensures { NamesTargets area.now.slot (addresses set.now.entries) into.new }
{
    let header = header_of_set(set);
    match area.slot {
        None => write_system_header(&header, into),
        Some(slot) => write_header(slot, &header, into),
    }
}

/// Writes the blocks of a set as the bodies of a journal, and its header, which names their addresses. No barrier is made.
/// After an `Err` any bytes may stand in these blocks.
pub fn write_body<D: Disk>(disk: &mut D, area: &Area, set: &WriteSet) -> Result<(), DiskFault>
    requires area { IsArea area.now }
    requires some { 1 ≤ length set.now.entries }
    requires few { length set.now.entries ≤ most_bodies area.now }
    requires targets { (a : ℕ) → holds set.now.entries a ≡ true → may_be_target area.now a ≡ true }
    requires header { area.now.header < (D.state disk.old).size }
    requires bodies { area.now.body + length set.now.entries ≤ (D.state disk.old).size }
    // The header and as many bodies as the set has blocks may change, and no other block.
    ensures within { Within D.state D.left (IsBodyOf area.now.header area.now.body (length set.now.entries)) disk.old disk.new }
    ensures cause { HasCause (D.state disk.old) (D.state disk.new) result }
    ensures calm { OnOk result ((D.state disk.new).faults ≡ (D.state disk.old).faults) }
    // On a disk that tells they then hold the set.
    ensures header { (D.state disk.old).tells ≡ true
        → OnOk result (NamesTargets area.now.slot (addresses set.now.entries) (block (D.state disk.new).now area.now.header)) }
    ensures bodies { (D.state disk.old).tells ≡ true
        → OnOk result (HoldBlocks area.now.body set.now.entries (D.state disk.new).now) }
    ensures counts { (D.state disk.old).tells ≡ true
        → Made (length set.now.entries + 1) 0 (is_ok result) (D.state disk.old) (D.state disk.new) }
{
    write_bodies(disk, area, set)?;
    let mut bytes = [0; 1024];
    write_names(area, set, &mut bytes);
    disk.write(area.header, &bytes)
}

/// Writes the gate of a journal, open or closed. No barrier is made. After an `Err` any bytes may stand there.
pub fn set_gate<D: Disk>(disk: &mut D, area: &Area, on: bool) -> Result<(), DiskFault>
    requires { area.now.gate < (D.state disk.old).size }
    ensures within { Within D.state D.left (λ k. k ≡ area.now.gate) disk.old disk.new }
    ensures cause { HasCause (D.state disk.old) (D.state disk.new) result }
    ensures calm { OnOk result ((D.state disk.new).faults ≡ (D.state disk.old).faults) }
    ensures bytes { (D.state disk.old).tells ≡ true
        → OnOk result (block (D.state disk.new).now area.now.gate ≡ gate_block on) }
    ensures reads { (D.state disk.old).tells ≡ true
        → OnOk result (is_open (block (D.state disk.new).now area.now.gate) ≡ on) }
    ensures counts { (D.state disk.old).tells ≡ true
        → WriteCounts area.now.gate (is_ok result) (D.state disk.old) (D.state disk.new) }
{
    let mut bytes = [0; 1024];
    write_gate(on, &mut bytes);
    disk.write(area.gate, &bytes)
}
