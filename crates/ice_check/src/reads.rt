//! Single blocks, bits and inodes of a lot.
ghost use Rattle.std.specs.Prelude.{◌≡◌, ◌<◌, ◌*◌, true, OnOk, OnErr, IfOk, IfErr, length};
ghost use Rattle.ice_base.specs.Disk.{Rose};
ghost use Rattle.ice_base.specs.Lots.{is_address, is_sited};
ghost use Rattle.ice_base.specs.Used.{used_inode};
ghost use Rattle.ice_base.specs.Views.{Looked};
ghost use Rattle.ice_map.specs.Inodes.{inode_of};
ghost use Rattle.ice_reads.specs.Tables.{Map};
ghost use Rattle.ice_check.specs.Shown.{Shows, IsDisk};

use crate::fault::CheckFault;
use ice_base::{Block, Disk, FormOne, Lot, View, fetch};
use ice_bits::bit;
use ice_map::{Inode, get_inode};

/// Reads the block of an address of the lot.
pub fn read_block<D: Disk, V: View<D>>(
    view: &mut V,
    disk: &mut D,
    lot: &Lot,
    at: u32,
    into: &mut Block,
) -> Result<(), CheckFault>
    requires sited { is_sited lot.now (D.state disk.old).size ≡ true }
    requires address { is_address lot.now at ≡ true }
    ensures content { (m : Map) → Shows V.View lot.now view.old disk.old m → OnOk result (into.new ≡ m at) }
    ensures looked { Looked D.Disk V.View lot.now view.old disk.old view.new disk.new }
    ensures fault { IfErr result IsDisk }
    ensures failed { OnErr result (Rose (D.state disk.old).faults (D.state disk.new).faults) }
{
    match fetch(view, disk, lot, at, into) {
        Ok(()) => Ok(()),
        Err(_) => Err(CheckFault::Disk),
    }
}

/// The inode of a number.
pub fn read_inode<D: Disk, V: View<D>>(
    view: &mut V,
    disk: &mut D,
    lot: &Lot,
    number: u32,
) -> Result<Inode, CheckFault>
    requires sited { is_sited lot.now (D.state disk.old).size ≡ true }
    requires number { number < 64 * length lot.now.groups }
    ensures value { (m : Map) → Shows V.View lot.now view.old disk.old m → IfOk result (λ inode. inode ≡ inode_of m number) }
    ensures looked { Looked D.Disk V.View lot.now view.old disk.old view.new disk.new }
    ensures fault { IfErr result IsDisk }
    ensures failed { OnErr result (Rose (D.state disk.old).faults (D.state disk.new).faults) }
{
    match get_inode::<D, V, FormOne>(view, disk, lot, number) {
        Ok(inode) => Ok(inode),
        Err(_) => Err(CheckFault::Disk),
    }
}

/// Whether an inode is marked used in its bitmap.
#[tactic(auto, using(ice_base::proofs::LotLaws::address_laws, ice_base::proofs::UsedLaws::group_laws))]
pub fn is_used<D: Disk, V: View<D>>(
    view: &mut V,
    disk: &mut D,
    lot: &Lot,
    number: u32,
) -> Result<bool, CheckFault>
    requires sited { is_sited lot.now (D.state disk.old).size ≡ true }
    requires number { number < 64 * length lot.now.groups }
    ensures value { (m : Map) → Shows V.View lot.now view.old disk.old m → IfOk result (λ used. used ≡ used_inode m number) }
    ensures looked { Looked D.Disk V.View lot.now view.old disk.old view.new disk.new }
    ensures fault { IfErr result IsDisk }
    ensures failed { OnErr result (Rose (D.state disk.old).faults (D.state disk.new).faults) }
{
    let mut block = [0; 1024];
    read_block(view, disk, lot, 256 * (number / 64), &mut block)?;
    Ok(bit(&block, true, number % 64))
}
