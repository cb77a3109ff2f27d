//! The check of a lot's tree from no mark on, and the sub-super block.
ghost use Rattle.std.specs.Prelude.{◌≡◌, ◌≤◌, ◌<◌, ◌*◌, true, false, OnOk, IfOk, IfErr, length};
ghost use Rattle.ice_base.specs.Bits.{count_below};
ghost use Rattle.ice_base.specs.Disk.{Caused};
ghost use Rattle.ice_base.specs.Lots.{is_sited, sub_address};
ghost use Rattle.ice_base.specs.Used.{counted};
ghost use Rattle.ice_base.specs.Views.{Looked};
ghost use Rattle.ice_layout.specs.Subs.{IsSub};
ghost use Rattle.ice_reads.specs.Tables.{Map};
ghost use Rattle.ice_check.specs.Marks.{marked, Unmarked, CountsDiffer};
ghost use Rattle.ice_check.specs.Shown.{Shows, IsCheckFault, Broke, Named, HoldsSome};
ghost use Rattle.ice_check.specs.declared.fault.CheckFault.TheVariants.{Disk as FaultDisk};

use crate::compare::compare_bits;
use crate::fault::CheckFault;
use crate::marks::{count_marks, unmarked};
use crate::names::{Kept, no_names};
use crate::reads::read_block;
use crate::walk::check_inode;
use ice_base::{Disk, Lot, Rule, SUB, View};
use ice_layout::{SubSuper, read_sub};

/// What the sub-super block says, or the first of the rules Magic, Version, Slot, Mode, Done that it breaks.
#[tactic(auto, using(ice_base::proofs::LotLaws::address_laws))]
pub fn read_sub_super<D: Disk, V: View<D>>(
    view: &mut V,
    disk: &mut D,
    lot: &Lot,
) -> Result<SubSuper, CheckFault>
    requires sited { is_sited lot.now (D.state disk.old).size ≡ true }
    ensures sub { (m : Map) → Shows V.View lot.now view.old disk.old m
        → IfOk result (λ sub. IsSub lot.now.slot sub (m sub_address)) }
    ensures named { (m : Map) → Shows V.View lot.now view.old disk.old m → IfErr result (Named lot.now m) }
    ensures looked { Looked D.Disk V.View lot.now view.old disk.old view.new disk.new }
    ensures faults { IfErr result IsCheckFault }
    ensures failed { Caused D.state FaultDisk result disk.old disk.new }
{
    let mut block = [0; 1024];
    read_block(view, disk, lot, SUB, &mut block)?;
    match read_sub(&block, lot.slot()) {
        Ok(sub) => Ok(sub),
        Err(rule) => Err(CheckFault::Damaged(rule)),
    }
}

/// Whether the counts of the sub-super block are the numbers of marks.
fn counts_agree(lot: &Lot, sub: &SubSuper, inodes: &[bool], blocks: &[bool]) -> bool
    requires few { length lot.now.groups ≤ 64 }
    requires inodes { 64 * length lot.now.groups ≤ length inodes.now }
    requires blocks { 256 * length lot.now.groups ≤ length blocks.now }
    ensures blocks { result ≡ true → count_below (marked blocks.now) (256 * length lot.now.groups) ≡ sub.now.blocks }
    ensures inodes { result ≡ true → count_below (marked inodes.now) (64 * length lot.now.groups) ≡ sub.now.nodes }
    ensures no { result ≡ false → CountsDiffer lot.now sub.now.blocks sub.now.nodes inodes.now blocks.now }
{
    let groups = lot.len() as usize;
    if count_marks(blocks, 256 * groups) != sub.blocks {
        return false;
    }
    count_marks(inodes, 64 * groups) == sub.nodes
}

/// Checks the inodes, from the root on, and then the bitmaps and the counts.
pub fn check_tree<D: Disk, V: View<D>>(
    view: &mut V,
    disk: &mut D,
    lot: &Lot,
    sub: &SubSuper,
    inodes: &mut [bool],
    blocks: &mut [bool],
    names: &mut [Kept],
) -> Result<(), CheckFault>
    requires sited { is_sited lot.now (D.state disk.old).size ≡ true }
    requires inodes { 64 * length lot.now.groups ≤ length inodes.old }
    requires blocks { 256 * length lot.now.groups ≤ length blocks.old }
    requires names { 64 * length lot.now.groups ≤ length names.old }
    requires blank { Unmarked inodes.old × Unmarked blocks.old }
    ensures holds { (m : Map) → Shows V.View lot.now view.old disk.old m → counted false m ≡ sub.now.blocks
        → counted true m ≡ sub.now.nodes → OnOk result (HoldsSome lot.now m) }
    ensures broken { (m : Map) → Shows V.View lot.now view.old disk.old m → counted false m ≡ sub.now.blocks
        → counted true m ≡ sub.now.nodes → IfErr result (Broke lot.now m) }
    ensures looked { Looked D.Disk V.View lot.now view.old disk.old view.new disk.new }
    ensures faults { IfErr result IsCheckFault }
    ensures failed { Caused D.state FaultDisk result disk.old disk.new }
{
    check_inode(view, disk, lot, 0, 0, inodes, blocks, names)?;
    compare_bits(view, disk, lot, inodes, blocks)?;
    if !counts_agree(lot, sub, inodes, blocks) {
        return Err(CheckFault::Damaged(Rule::Counts));
    }
    Ok(())
}

/// Checks the inodes, the bitmaps and the counts of a lot of at most so many inodes and blocks.
pub fn check_blank<D: Disk, V: View<D>, const INODES: usize, const BLOCKS: usize>(
    view: &mut V,
    disk: &mut D,
    lot: &Lot,
    sub: &SubSuper,
) -> Result<(), CheckFault>
    requires sited { is_sited lot.now (D.state disk.old).size ≡ true }
    requires inodes { 64 * length lot.now.groups ≤ INODES }
    requires blocks { 256 * length lot.now.groups ≤ BLOCKS }
    requires few_inodes { INODES ≤ 4096 }
    requires few_blocks { BLOCKS ≤ 16384 }
    ensures holds { (m : Map) → Shows V.View lot.now view.old disk.old m → counted false m ≡ sub.now.blocks
        → counted true m ≡ sub.now.nodes → OnOk result (HoldsSome lot.now m) }
    ensures broken { (m : Map) → Shows V.View lot.now view.old disk.old m → counted false m ≡ sub.now.blocks
        → counted true m ≡ sub.now.nodes → IfErr result (Broke lot.now m) }
    ensures looked { Looked D.Disk V.View lot.now view.old disk.old view.new disk.new }
    ensures faults { IfErr result IsCheckFault }
    ensures failed { Caused D.state FaultDisk result disk.old disk.new }
{
    let mut inodes = unmarked::<INODES>();
    let mut blocks = unmarked::<BLOCKS>();
    let mut names = no_names::<INODES>();
    check_tree(view, disk, lot, sub, &mut inodes, &mut blocks, &mut names)
}
