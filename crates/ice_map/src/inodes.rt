//! Inodes of a lot.
ghost use Rattle.std.specs.Prelude.{is_ok, ◌≡◌, ◌<◌, ◌≤◌, ◌*◌, true, [], ◌∷◌, OnOk, OnErr, IfOk, IfErr, length};
ghost use Rattle.ice_base.specs.Disk.{Rose};
ghost use Rattle.ice_base.specs.Lots.{is_address, is_sited};
ghost use Rattle.ice_base.specs.Views.{Looked, Spent, Puts, AsShown, IfShown};
ghost use Rattle.ice_base.specs.Inodes.{inode_address};
ghost use Rattle.ice_base.specs.Faults.{IsDiskFault};
ghost use Rattle.ice_map.specs.Inodes.{inode_of, InodeSet};

use crate::codec::{Inode, read_inode, write_inode};
use ice_base::{Disk, Form, Keep, Lot, OpFault, Pool, View, fetch, store};

#[tactic(auto, using(crate::proofs::InodeLaws::inode_laws))]
fn block_of(lot: &Lot, number: u32) -> u32
    requires { number < 64 * length lot.now.groups }
    ensures block { result ≡ inode_address number }
    ensures address { is_address lot.now result ≡ true }
{
    let groups = lot.len() as u32;
    prove!(number < 64 * groups);
    256 * (number / 64) + (1 + number % 64 / 8)
}

/// The inode of a number.
pub fn get_inode<D: Disk, V: View<D>, F: Form>(
    view: &mut V,
    disk: &mut D,
    lot: &Lot,
    number: u32,
) -> Result<Inode, OpFault>
    requires sited { is_sited lot.now (D.state disk.old).size ≡ true }
    requires number { number < 64 * length lot.now.groups }
    ensures value { IfShown V.View lot.now view.old disk.old (λ old.
        IfOk result (λ inode. inode ≡ inode_of old number)) }
    ensures looked { Looked D.Disk V.View lot.now view.old disk.old view.new disk.new }
    ensures faults { IfErr result IsDiskFault }
    ensures failed { OnErr result (Rose (D.state disk.old).faults (D.state disk.new).faults) }
{
    let mut block = [0; 1024];
    fetch(view, disk, lot, block_of(lot, number), &mut block)?;
    Ok(read_inode(&block, number % 8))
}

/// Puts an inode: its block is read, changed and put. After an `Err` any bytes may stand in that block.
pub fn put_inode<D: Disk, K: Keep<D>, P: Pool<D, K>, F: Form>(
    keep: &mut K,
    _pool: &mut P,
    disk: &mut D,
    lot: &Lot,
    number: u32,
    inode: &Inode,
) -> Result<(), OpFault>
    requires sited { is_sited lot.now (D.state disk.old).size ≡ true }
    requires number { number < 64 * length lot.now.groups }
    requires room { 1 ≤ K.room keep.old }
    ensures written { AsShown K.View lot.now keep.old disk.old keep.new disk.new (λ old new.
        OnOk result (InodeSet old new number inode.now)) }
    ensures puts { Puts K.View lot.now (is_ok result) (inode_address number ∷ []) keep.old disk.old keep.new disk.new }
    ensures spent { Spent D.Disk K.View lot.now 1 keep.old disk.old keep.new disk.new }
    ensures faults { IfErr result IsDiskFault }
    ensures failed { OnErr result (Rose (D.state disk.old).faults (D.state disk.new).faults) }
{
    let mut block = [0; 1024];
    let at = block_of(lot, number);
    fetch(keep, disk, lot, at, &mut block)?;
    write_inode(&mut block, number % 8, inode);
    store(keep, disk, lot, at, &block)?;
    Ok(())
}
