//! A block of a map that is to be written.
ghost use Rattle.std.specs.Prelude.{◌≡◌, ◌≤◌, ◌<◌, ◌+◌, ◌*◌, max, true, false, OnOk, IfOk, IfErr, IsErrOf};
ghost use Rattle.ice_base.specs.Disk.{Caused};
ghost use Rattle.ice_base.specs.Lots.{is_sited};
ghost use Rattle.ice_base.specs.Used.{is_data};
ghost use Rattle.ice_base.specs.Views.{Looked, Spent, AsShown, IfShown};
ghost use Rattle.ice_base.specs.declared.fault.OpFault.TheVariants.{Disk as FaultDisk, Damaged, NoSpace};
ghost use Rattle.ice_base.specs.declared.fault.Rule.TheVariants.{Pointer};
ghost use Rattle.ice_map.specs.Faults.{IsGrowFault};
ghost use Rattle.ice_map.specs.Growth.{Grew, GrowthRefused, InodesStay};
ghost use Rattle.ice_map.specs.Maps.{longest, nth_block};
ghost use Rattle.ice_map.specs.Moves.{HadBlock, due};
ghost use Rattle.ice_map.specs.Own.{MadeOf};

use crate::codec::Inode;
use crate::extends::extend;
use crate::maps::nth;
use ice_base::{Disk, Form, Keep, Lot, OpFault, Pool};

/// Block `k` of a map of `count` blocks, or a new one where the map ends there. The inode is the caller's to put.
/// NoSpace: a new one needs more blocks than are free. Damaged: what a look at the map or its growth says.
#[tactic(auto, using(crate::proofs::DueLaws::due_laws))]
pub fn reach<D: Disk, K: Keep<D>, P: Pool<D, K>, F: Form>(
    keep: &mut K,
    pool: &mut P,
    disk: &mut D,
    lot: &Lot,
    inode: &mut Inode,
    count: u32,
    k: u32,
) -> Result<u32, OpFault>
    // The lot lies on the disk, the keep can hold what a growth puts, and the block is one of the map or the next.
    requires sited { is_sited lot.now (D.state disk.old).size ≡ true }
    requires room { 6 ≤ K.room keep.old }
    requires order { k ≤ count }
    requires short { k < longest }
    // The block, at a data place: that of the map, or a new one.
    ensures reached { AsShown K.View lot.now keep.old disk.old keep.new disk.new (λ old new.
        MadeOf lot.now old inode.old count
        → IfOk result (HadBlock lot.now old new inode.old inode.new count k)) }
    ensures data { IfOk result (λ a. is_data lot.now a ≡ true) }
    ensures had { AsShown K.View lot.now keep.old disk.old keep.new disk.new (λ old new.
        k < count → IfOk result (λ a. (a ≡ nth_block old inode.old k) × (new ≡ old))) }
    // What the inode and its map became, and that each inode on the disk stays.
    ensures kind { OnOk result (inode.new.kind ≡ inode.old.kind) }
    ensures size { OnOk result (inode.new.size ≡ inode.old.size) }
    ensures grew { AsShown K.View lot.now keep.old disk.old keep.new disk.new (λ old new.
        OnOk result (Grew lot.now old new inode.old inode.new count (max count (k + 1)))) }
    ensures stays { AsShown K.View lot.now keep.old disk.old keep.new disk.new (λ old new. InodesStay old new) }
    // What it takes of the keep and of the disk.
    ensures pays { OnOk result (K.room keep.old + due (K.held keep.new) inode.new.single (max count (k + 1))
        ≤ K.room keep.new + due (K.held keep.old) inode.old.single count + 1) }
    ensures spent { Spent D.Disk K.View lot.now 6 keep.old disk.old keep.new disk.new }
    // When each refusal may come; damage that it names is there.
    ensures refused { IfShown K.View lot.now keep.old disk.old (λ old.
        IfErr result (GrowthRefused lot.now old inode.old count k)) }
    // Where it has no space or strays, it only looked.
    ensures looked { IsErrOf result NoSpace
        → Looked D.Disk K.View lot.now keep.old disk.old keep.new disk.new }
    ensures unmoved { IsErrOf result (Damaged Pointer)
        → Looked D.Disk K.View lot.now keep.old disk.old keep.new disk.new }
    // Which refusals there are, and when a fault of the disk comes.
    ensures faults { IfErr result IsGrowFault }
    ensures failed { Caused D.state FaultDisk result disk.old disk.new }
{
    if k < count {
        let at = nth::<D, K, F>(keep, disk, lot, inode, k)?;
        return Ok(at);
    }
    let taken = extend::<D, K, P, F>(keep, pool, disk, lot, inode, count)?;
    Ok(taken)
}
