//! Single blocks of addresses that are known to be the lot's.
ghost use Rattle.std.specs.Prelude.{is_ok, ◌≡◌, ◌≤◌, true, false, [], ◌∷◌, OnOk, OnErr, IfErr};
ghost use Rattle.ice_base.specs.Disk.{Rose};
ghost use Rattle.ice_base.specs.Lots.{is_address, is_sited};
ghost use Rattle.ice_base.specs.Views.{Looked, Spent, Puts};
ghost use Rattle.ice_base.specs.Faults.{IsDiskFault};

use crate::{Block, BlockFault, Disk, Keep, Lot, OpFault, View};

/// Reads the block of an address of the lot. After an `Err` any bytes may stand in `into`.
pub fn fetch<D: Disk, V: View<D>>(
    view: &mut V,
    disk: &mut D,
    lot: &Lot,
    at: u32,
    into: &mut Block,
) -> Result<(), OpFault>
    requires sited { is_sited lot.now (D.state disk.old).size ≡ true }
    requires address { is_address lot.now at ≡ true }
    ensures content { V.shows lot.now view.old disk.old
        → OnOk result (into.new ≡ V.map view.old disk.old lot.now at) }
    ensures looked { Looked D.Disk V.View lot.now view.old disk.old view.new disk.new }
    ensures fault { IfErr result IsDiskFault }
    ensures failed { OnErr result (Rose (D.state disk.old).faults (D.state disk.new).faults) }
{
    match view.get(disk, lot, at, into) {
        Ok(()) => Ok(()),
        Err(BlockFault::Disk) => Err(OpFault::Disk),
        Err(BlockFault::Range) => unreachable!(),
    }
}

/// Puts a block at an address of the lot. After an `Err` any bytes may stand there.
pub fn store<D: Disk, K: Keep<D>>(
    keep: &mut K,
    disk: &mut D,
    lot: &Lot,
    at: u32,
    from: &Block,
) -> Result<(), OpFault>
    requires sited { is_sited lot.now (D.state disk.old).size ≡ true }
    requires address { is_address lot.now at ≡ true }
    requires room { K.held keep.old at ≡ false → 1 ≤ K.room keep.old }
    ensures content { K.shows lot.now keep.old disk.old
        → OnOk result (K.map keep.new disk.new lot.now at ≡ from.now) }
    ensures puts { Puts K.View lot.now (is_ok result) (at ∷ []) keep.old disk.old keep.new disk.new }
    ensures holds { OnOk result (K.held keep.new at ≡ true) }
    ensures free { K.held keep.old at ≡ true → K.room keep.old ≤ K.room keep.new }
    ensures spent { Spent D.Disk K.View lot.now 1 keep.old disk.old keep.new disk.new }
    ensures fault { IfErr result IsDiskFault }
    ensures failed { OnErr result (Rose (D.state disk.old).faults (D.state disk.new).faults) }
{
    match keep.put(disk, lot, at, from) {
        Ok(()) => Ok(()),
        Err(BlockFault::Disk) => Err(OpFault::Disk),
        Err(BlockFault::Range) => unreachable!(),
    }
}
