//! The steps of a commit and of a replay: each makes its writes and then a barrier.
ghost use Rattle.std.specs.Prelude.{is_ok, ◌≡◌, ◌<◌, ◌≤◌, ◌+◌, ℕ, List, true, length, slice_index, OnOk, OnErr};
ghost use Rattle.ice_base.specs.Counts.{Made};
ghost use Rattle.ice_base.specs.Disk.{block, HasCause, Everywhere};
ghost use Rattle.ice_base.specs.Frames.{Within, Settled};
ghost use Rattle.ice_layout.specs.Headers.{is_open, AreTargets};
ghost use Rattle.ice_txn.specs.Sets.{address, addresses, contents, holds, Differ};
ghost use Rattle.ice_journal.specs.Areas.{IsArea, IsAreaOf, NamesTargets, may_be_target, most_bodies};
ghost use Rattle.ice_journal.specs.Blocks.{AreApart, AreHomes, IsBodyOf, IsPlace, IsPut, IsTargetPlace, LiesBelow};
ghost use Rattle.ice_journal.specs.Phases.{HoldBlocks};

use crate::effective::look;
use crate::{Area, Journal, set_gate, write_body};
use ice_base::{Disk, DiskFault};
use ice_txn::WriteSet;

/// Bodies and header.
pub(crate) fn settle_body<D: Disk>(
    disk: &mut D,
    area: &Area,
    set: &WriteSet,
) -> Result<(), DiskFault>
    requires area { IsArea area.now }
    requires some { 1 ≤ length set.now.entries }
    requires few { length set.now.entries ≤ most_bodies area.now }
    requires targets { (a : ℕ) → holds set.now.entries a ≡ true → may_be_target area.now a ≡ true }
    requires header { area.now.header < (D.state disk.old).size }
    requires bodies { area.now.body + length set.now.entries ≤ (D.state disk.old).size }
    ensures within { Within D.state D.left (IsBodyOf area.now.header area.now.body (length set.now.entries)) disk.old disk.new }
    ensures cause { HasCause (D.state disk.old) (D.state disk.new) result }
    ensures calm { OnOk result ((D.state disk.new).faults ≡ (D.state disk.old).faults) }
    ensures header { (D.state disk.old).tells ≡ true
        → OnOk result (NamesTargets area.now.slot (addresses set.now.entries) (block (D.state disk.new).now area.now.header)) }
    ensures bodies { (D.state disk.old).tells ≡ true
        → OnOk result (HoldBlocks area.now.body set.now.entries (D.state disk.new).now) }
    ensures settled { (D.state disk.old).tells ≡ true → OnOk result (Settled Everywhere (D.state disk.new)) }
    ensures counts { (D.state disk.old).tells ≡ true
        → Made (length set.now.entries + 1) 1 (is_ok result) (D.state disk.old) (D.state disk.new) }
{
    write_body(disk, area, set)?;
    disk.barrier()
}

/// The gate, open or closed. After an `Err` it is loose.
pub(crate) fn settle_gate<D: Disk>(disk: &mut D, area: &Area, on: bool) -> Result<(), DiskFault>
    requires { area.now.gate < (D.state disk.old).size }
    ensures within { Within D.state D.left (λ k. k ≡ area.now.gate) disk.old disk.new }
    ensures cause { HasCause (D.state disk.old) (D.state disk.new) result }
    ensures calm { OnOk result ((D.state disk.new).faults ≡ (D.state disk.old).faults) }
    ensures reads { (D.state disk.old).tells ≡ true
        → OnOk result (is_open (block (D.state disk.new).now area.now.gate) ≡ on) }
    ensures settled { (D.state disk.old).tells ≡ true → OnOk result (Settled Everywhere (D.state disk.new)) }
    ensures loose { (D.state disk.old).tells ≡ true
        → OnErr result ((D.state disk.new).loose area.now.gate ≡ true) }
    ensures counts { (D.state disk.old).tells ≡ true
        → Made 1 1 (is_ok result) (D.state disk.old) (D.state disk.new) }
{
    set_gate(disk, area, on)?;
    disk.barrier()
}

fn write_homes<D: Disk, J: Journal>(
    disk: &mut D,
    journal: &J,
    set: &WriteSet,
) -> Result<(), DiskFault>
    requires homes { AreHomes (J.places journal.now) set.now.entries }
    requires apart { AreApart (J.places journal.now) (J.most journal.now) }
    requires below { (k : ℕ) → IsPlace (J.places journal.now) k → k < (D.state disk.old).size }
    ensures within { Within D.state D.left (IsPut (J.places journal.now) set.now.entries) disk.old disk.new }
    ensures cause { HasCause (D.state disk.old) (D.state disk.new) result }
    ensures calm { OnOk result ((D.state disk.new).faults ≡ (D.state disk.old).faults) }
    ensures differ { Differ set.now.entries }
    ensures homes { (D.state disk.old).tells ≡ true → OnOk result ((j : ℕ) → j < length set.now.entries
        → block (D.state disk.new).now ((J.places journal.now).place (address set.now.entries j)) ≡ contents set.now.entries j) }
    ensures counts { (D.state disk.old).tells ≡ true
        → Made (length set.now.entries) 0 (is_ok result) (D.state disk.old) (D.state disk.new) }
{
    for i in 0..set.len() {
        let home = journal.home(set.address(i));
        disk.write(home, set.block(i))?;
    }
    Ok(())
}

/// The homes of a set's addresses.
pub(crate) fn settle_homes<D: Disk, J: Journal>(
    disk: &mut D,
    journal: &J,
    set: &WriteSet,
) -> Result<(), DiskFault>
    requires homes { AreHomes (J.places journal.now) set.now.entries }
    requires apart { AreApart (J.places journal.now) (J.most journal.now) }
    requires below { (k : ℕ) → IsPlace (J.places journal.now) k → k < (D.state disk.old).size }
    ensures within { Within D.state D.left (IsPut (J.places journal.now) set.now.entries) disk.old disk.new }
    ensures cause { HasCause (D.state disk.old) (D.state disk.new) result }
    ensures calm { OnOk result ((D.state disk.new).faults ≡ (D.state disk.old).faults) }
    ensures differ { Differ set.now.entries }
    ensures homes { (D.state disk.old).tells ≡ true → OnOk result ((j : ℕ) → j < length set.now.entries
        → block (D.state disk.new).now ((J.places journal.now).place (address set.now.entries j)) ≡ contents set.now.entries j) }
    ensures settled { (D.state disk.old).tells ≡ true → OnOk result (Settled Everywhere (D.state disk.new)) }
    ensures counts { (D.state disk.old).tells ≡ true
        → Made (length set.now.entries) 1 (is_ok result) (D.state disk.old) (D.state disk.new) }
{
    write_homes(disk, journal, set)?;
    disk.barrier()
}

/// One block as another.
fn copy_block<D: Disk>(disk: &mut D, from: u32, to: u32) -> Result<(), DiskFault>
    requires from { from < (D.state disk.old).size }
    requires to { to < (D.state disk.old).size }
    ensures within { Within D.state D.left (λ k. k ≡ to) disk.old disk.new }
    ensures cause { HasCause (D.state disk.old) (D.state disk.new) result }
    ensures calm { OnOk result ((D.state disk.new).faults ≡ (D.state disk.old).faults) }
    ensures bytes { (D.state disk.old).tells ≡ true
        → OnOk result (block (D.state disk.new).now to ≡ block (D.state disk.old).now from) }
    ensures counts { (D.state disk.old).tells ≡ true
        → Made 1 0 (is_ok result) (D.state disk.old) (D.state disk.new) }
{
    let mut bytes = [0; 1024];
    look(disk, from, &mut bytes)?;
    disk.write(to, &bytes)
}

fn write_targets<D: Disk, J: Journal>(
    disk: &mut D,
    journal: &J,
    area: &Area,
    targets: &[u32],
) -> Result<(), DiskFault>
    requires targets { AreTargets (J.most journal.now) (J.places journal.now).home targets.now }
    requires area { IsAreaOf area.now (J.reads journal.now) (J.places journal.now) (J.most journal.now) }
    requires below { LiesBelow (J.places journal.now) (J.most journal.now) (D.state disk.old).size }
    ensures within { Within D.state D.left (IsTargetPlace (J.places journal.now) targets.now) disk.old disk.new }
    ensures cause { HasCause (D.state disk.old) (D.state disk.new) result }
    ensures calm { OnOk result ((D.state disk.new).faults ≡ (D.state disk.old).faults) }
    ensures homes { (D.state disk.old).tells ≡ true → OnOk result ((j : ℕ) → j < length targets.now
        → block (D.state disk.new).now ((J.places journal.now).place (slice_index targets.now j))
        ≡ block (D.state disk.old).now ((J.places journal.now).body + j)) }
    ensures counts { (D.state disk.old).tells ≡ true
        → Made (length targets.now) 0 (is_ok result) (D.state disk.old) (D.state disk.new) }
{
    for i in 0..targets.len() {
        let home = journal.home(targets[i]);
        copy_block(disk, area.body + i as u32, home)?;
    }
    Ok(())
}

/// The homes of targets, each from its body.
pub(crate) fn settle_targets<D: Disk, J: Journal>(
    disk: &mut D,
    journal: &J,
    area: &Area,
    targets: &[u32],
) -> Result<(), DiskFault>
    requires targets { AreTargets (J.most journal.now) (J.places journal.now).home targets.now }
    requires area { IsAreaOf area.now (J.reads journal.now) (J.places journal.now) (J.most journal.now) }
    requires below { LiesBelow (J.places journal.now) (J.most journal.now) (D.state disk.old).size }
    ensures within { Within D.state D.left (IsTargetPlace (J.places journal.now) targets.now) disk.old disk.new }
    ensures cause { HasCause (D.state disk.old) (D.state disk.new) result }
    ensures calm { OnOk result ((D.state disk.new).faults ≡ (D.state disk.old).faults) }
    ensures homes { (D.state disk.old).tells ≡ true → OnOk result ((j : ℕ) → j < length targets.now
        → block (D.state disk.new).now ((J.places journal.now).place (slice_index targets.now j))
        ≡ block (D.state disk.old).now ((J.places journal.now).body + j)) }
    ensures settled { (D.state disk.old).tells ≡ true → OnOk result (Settled Everywhere (D.state disk.new)) }
    ensures counts { (D.state disk.old).tells ≡ true
        → Made (length targets.now) 1 (is_ok result) (D.state disk.old) (D.state disk.new) }
{
    write_targets(disk, journal, area, targets)?;
    disk.barrier()
}
