//! The blocks of a fresh lot.
ghost use Rattle.std.specs.Prelude.{is_ok, ◌≡◌, ◌≤◌, ◌<◌, ◌+◌, ◌*◌, ◌-◌, true, length, OnOk};
ghost use Rattle.ice_base.specs.Counts.{Made};
ghost use Rattle.ice_base.specs.Disk.{block, Everywhere, HasCause};
ghost use Rattle.ice_base.specs.Frames.{Within, Settled, Sure};
ghost use Rattle.ice_base.specs.Lots.{area, extent, is_sited, IsLot};
ghost use Rattle.ice_layout.specs.Subs.{IsSub};
ghost use Rattle.ice_cube.specs.Fresh.{fresh_sub, HasFreshGroup, HasFreshGroups, IsEmptyLot, IsGroupHead, IsHeadFrom};

use ice_base::{Disk, DiskFault, Lot, SUB};
use ice_journal::{area_of, set_gate};
use ice_layout::{SubSuper, fresh_group, write_sub};

/// Writes the bitmap and the inode blocks of one group.
#[tactic(auto, using(ice_base::proofs::LotLaws::address_laws, ice_base::proofs::LotLaws::place_laws))]
fn init_group<D: Disk>(disk: &mut D, lot: &Lot, ordinal: u8) -> Result<(), DiskFault>
    requires sited { is_sited lot.now (D.state disk.old).size ≡ true }
    requires ordinal { ordinal < length lot.now.groups }
    ensures within { Within D.state D.left (IsGroupHead lot.now ordinal) disk.old disk.new }
    ensures cause { HasCause (D.state disk.old) (D.state disk.new) result }
    ensures calm { OnOk result ((D.state disk.new).faults ≡ (D.state disk.old).faults) }
    ensures blocks { (D.state disk.old).tells ≡ true
        → OnOk result (HasFreshGroup lot.now ordinal (D.state disk.new).now) }
    ensures counts { (D.state disk.old).tells ≡ true
        → Made 9 0 (is_ok result) (D.state disk.old) (D.state disk.new) }
{
    let mut block = [0; 1024];
    for at in 0..9u32 {
        fresh_group(ordinal == 0, at, &mut block);
        let home = lot.home(256 * u32::from(ordinal) + at);
        disk.write(home, &block)?;
    }
    Ok(())
}

fn write_groups<D: Disk>(disk: &mut D, lot: &Lot, from: u8) -> Result<(), DiskFault>
    requires sited { is_sited lot.now (D.state disk.old).size ≡ true }
    requires from { from ≤ length lot.now.groups }
    ensures within { Within D.state D.left (IsHeadFrom lot.now from) disk.old disk.new }
    ensures cause { HasCause (D.state disk.old) (D.state disk.new) result }
    ensures calm { OnOk result ((D.state disk.new).faults ≡ (D.state disk.old).faults) }
    ensures blocks { (D.state disk.old).tells ≡ true
        → OnOk result (HasFreshGroups lot.now from (D.state disk.new).now) }
    ensures counts { (D.state disk.old).tells ≡ true
        → Made (9 * (length lot.now.groups - from)) 0 (is_ok result) (D.state disk.old) (D.state disk.new) }
{
    for ordinal in from..lot.len() {
        init_group(disk, lot, ordinal)?;
    }
    Ok(())
}

/// Writes the bitmaps and the inode blocks of the groups of the ordinals from `from` on, as those of fresh groups, and settles them by a
/// barrier: nine blocks for each group. After an `Err` any bytes may stand in these blocks.
pub fn init_groups<D: Disk>(disk: &mut D, lot: &Lot, from: u8) -> Result<(), DiskFault>
    requires sited { is_sited lot.now (D.state disk.old).size ≡ true }
    requires from { from ≤ length lot.now.groups }
    // Only these blocks may change. Faults come from the disk alone.
    ensures within { Within D.state D.left (IsHeadFrom lot.now from) disk.old disk.new }
    ensures cause { HasCause (D.state disk.old) (D.state disk.new) result }
    ensures calm { OnOk result ((D.state disk.new).faults ≡ (D.state disk.old).faults) }
    // On a disk that tells, an Ok leaves fresh groups, and every block settled.
    ensures blocks { (D.state disk.old).tells ≡ true
        → OnOk result (HasFreshGroups lot.now from (D.state disk.new).now) }
    ensures settled { (D.state disk.old).tells ≡ true → OnOk result (Settled Everywhere (D.state disk.new)) }
    ensures counts { (D.state disk.old).tells ≡ true
        → Made (9 * (length lot.now.groups - from)) 1 (is_ok result) (D.state disk.old) (D.state disk.new) }
{
    write_groups(disk, lot, from)?;
    disk.barrier()
}

/// Writes the sub-super block of a new cube.
#[tactic(auto, using(ice_base::proofs::LotLaws::is_address_sub, ice_base::proofs::LotLaws::place_laws))]
fn write_fresh_sub<D: Disk>(disk: &mut D, lot: &Lot) -> Result<(), DiskFault>
    requires { is_sited lot.now (D.state disk.old).size ≡ true }
    ensures within { Within D.state D.left (λ k. k ≡ area lot.now) disk.old disk.new }
    ensures cause { HasCause (D.state disk.old) (D.state disk.new) result }
    ensures calm { OnOk result ((D.state disk.new).faults ≡ (D.state disk.old).faults) }
    ensures sub { (D.state disk.old).tells ≡ true
        → OnOk result (IsSub lot.now.slot (fresh_sub lot.now.slot) (block (D.state disk.new).now (area lot.now))) }
    ensures counts { (D.state disk.old).tells ≡ true
        → Made 1 0 (is_ok result) (D.state disk.old) (D.state disk.new) }
    ensures lot { IsLot lot.now }
{
    let sub = SubSuper {
        version: 1,
        slot: lot.slot(),
        mode: 0,
        done: 0,
        blocks: 0,
        nodes: 1,
    };
    let mut block = [0; 1024];
    write_sub(&sub, &mut block);
    disk.write(lot.home(SUB), &block)
}

/// Writes a fresh lot and settles it by a barrier: the sub-super block, the closed gate, and the bitmap and inode blocks of each group.
/// After an `Err` any bytes may stand in these blocks.
pub(crate) fn write_fresh<D: Disk>(disk: &mut D, lot: &Lot) -> Result<(), DiskFault>
    requires sited { is_sited lot.now (D.state disk.old).size ≡ true }
    // Only blocks of the lot may change. Faults come from the disk alone.
    ensures within { Within D.state D.left (extent lot.now) disk.old disk.new }
    ensures cause { HasCause (D.state disk.old) (D.state disk.new) result }
    ensures calm { OnOk result ((D.state disk.new).faults ≡ (D.state disk.old).faults) }
    // On a disk that tells, an Ok leaves the lot of a new cube, and every block settled.
    ensures fresh { (D.state disk.old).tells ≡ true
        → OnOk result (Sure (extent lot.now) (IsEmptyLot lot.now) (D.state disk.new)) }
    ensures settled { (D.state disk.old).tells ≡ true → OnOk result (Settled Everywhere (D.state disk.new)) }
    ensures counts { (D.state disk.old).tells ≡ true
        → Made (9 * length lot.now.groups + 2) 1 (is_ok result) (D.state disk.old) (D.state disk.new) }
{
    write_fresh_sub(disk, lot)?;
    set_gate(disk, &area_of(lot), false)?;
    init_groups(disk, lot, 0)
}
