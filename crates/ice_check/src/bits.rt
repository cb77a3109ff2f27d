//! The bits of the blocks that an inode uses.
ghost use Rattle.std.specs.Prelude.{◌≡◌, ◌≤◌, ◌<◌, ℕ, true, false, IfErr, length};
ghost use Rattle.ice_base.specs.Disk.{Caused};
ghost use Rattle.ice_base.specs.Lots.{is_sited};
ghost use Rattle.ice_base.specs.Spare.{has};
ghost use Rattle.ice_base.specs.Used.{used_block, is_data};
ghost use Rattle.ice_base.specs.Views.{Looked};
ghost use Rattle.ice_map.specs.Maps.{longest, blocks_of, indirect_of, uses};
ghost use Rattle.ice_reads.specs.Tables.{Map};
ghost use Rattle.ice_check.specs.Marks.{SomeUnused};
ghost use Rattle.ice_check.specs.Shown.{Shows, IsCheckFault, IfBitmap};
ghost use Rattle.ice_check.specs.declared.fault.CheckFault.TheVariants.{Disk as FaultDisk};

use crate::fault::CheckFault;
use crate::inodes::pointer;
use crate::reads::read_block;
use ice_base::{Block, Disk, Lot, Rule, View};
use ice_bits::bit;
use ice_map::Inode;

/// Damaged: the block is not marked used.
fn check_bit<D: Disk, V: View<D>>(
    view: &mut V,
    disk: &mut D,
    lot: &Lot,
    at: u32,
) -> Result<(), CheckFault>
    requires sited { is_sited lot.now (D.state disk.old).size ≡ true }
    requires data { is_data lot.now at ≡ true }
    ensures clear { (m : Map) → Shows V.View lot.now view.old disk.old m → IfErr result (IfBitmap (used_block m at ≡ false)) }
    ensures looked { Looked D.Disk V.View lot.now view.old disk.old view.new disk.new }
    ensures faults { IfErr result IsCheckFault }
    ensures failed { Caused D.state FaultDisk result disk.old disk.new }
{
    let mut block = [0; 1024];
    read_block(view, disk, lot, 256 * (at / 256), &mut block)?;
    if !bit(&block, false, at % 256) {
        return Err(CheckFault::Damaged(Rule::Bitmap));
    }
    Ok(())
}

fn check_indirect<D: Disk, V: View<D>>(
    view: &mut V,
    disk: &mut D,
    lot: &Lot,
    inode: &Inode,
    count: u32,
) -> Result<(), CheckFault>
    requires sited { is_sited lot.now (D.state disk.old).size ≡ true }
    requires data { (b : ℕ) → has (indirect_of inode.now count) b ≡ true → is_data lot.now b ≡ true }
    ensures clear { (m : Map) → Shows V.View lot.now view.old disk.old m → IfErr result (IfBitmap (SomeUnused m (indirect_of inode.now count))) }
    ensures looked { Looked D.Disk V.View lot.now view.old disk.old view.new disk.new }
    ensures faults { IfErr result IsCheckFault }
    ensures failed { Caused D.state FaultDisk result disk.old disk.new }
{
    if count <= 12 {
        return Ok(());
    }
    check_bit(view, disk, lot, inode.single)
}

fn check_each<D: Disk, V: View<D>>(
    view: &mut V,
    disk: &mut D,
    lot: &Lot,
    inode: &Inode,
    pointers: &Block,
    count: u32,
) -> Result<(), CheckFault>
    requires sited { is_sited lot.now (D.state disk.old).size ≡ true }
    requires short { count ≤ longest }
    requires data { (b : ℕ) → has (blocks_of (λ _. pointers.now) inode.now count) b ≡ true → is_data lot.now b ≡ true }
    ensures clear { (m : Map) → Shows V.View lot.now view.old disk.old m
        → IfErr result (IfBitmap (SomeUnused m (blocks_of (λ _. pointers.now) inode.now count))) }
    ensures looked { Looked D.Disk V.View lot.now view.old disk.old view.new disk.new }
    ensures faults { IfErr result IsCheckFault }
    ensures failed { Caused D.state FaultDisk result disk.old disk.new }
{
    for n in 0..count {
        let at = pointer(inode, pointers, n);
        match check_bit(view, disk, lot, at) {
            Ok(()) => {}
            Err(fault) => return Err(fault),
        }
    }
    Ok(())
}

/// Damaged: a block that a map of `count` blocks uses is not marked used.
pub fn check_bits<D: Disk, V: View<D>>(
    view: &mut V,
    disk: &mut D,
    lot: &Lot,
    inode: &Inode,
    pointers: &Block,
    count: u32,
) -> Result<(), CheckFault>
    requires sited { is_sited lot.now (D.state disk.old).size ≡ true }
    requires short { count ≤ longest }
    requires data { (b : ℕ) → has (uses (λ _. pointers.now) inode.now count) b ≡ true → is_data lot.now b ≡ true }
    ensures clear { (m : Map) → Shows V.View lot.now view.old disk.old m
        → IfErr result (IfBitmap (SomeUnused m (uses (λ _. pointers.now) inode.now count))) }
    ensures looked { Looked D.Disk V.View lot.now view.old disk.old view.new disk.new }
    ensures faults { IfErr result IsCheckFault }
    ensures failed { Caused D.state FaultDisk result disk.old disk.new }
{
    match check_indirect(view, disk, lot, inode, count) {
        Ok(()) => check_each(view, disk, lot, inode, pointers, count),
        Err(fault) => Err(fault),
    }
}
