//! New cubes.
ghost use Rattle.std.specs.Prelude.{◌≡◌, List, [], true, false, OnOk, IfOk, IsErrOf};
ghost use Rattle.ice_base.specs.Disk.{Caused, Everywhere};
ghost use Rattle.ice_base.specs.Frames.{Settled, Within};
ghost use Rattle.ice_base.specs.Lots.{extent, is_sited};
ghost use Rattle.tree_spec.specs.Costs.{form_one};
ghost use Rattle.tree_spec.specs.Records.{Plain, fresh};
ghost use Rattle.tree_spec.specs.Trees.{Dir, Nil};
ghost use Rattle.ice_cube.specs.Cubes.{Holds};
ghost use Rattle.ice_cube.specs.declared.fault.MakeFault.TheVariants.{Disk as FaultDisk, Memory};

use crate::cube::Cube;
use crate::fault::MakeFault;
use crate::fresh::write_fresh;
use ice_base::{Disk, Lot};
use ice_keep::JournalKeep;
use std::alloc::Global;

impl Cube {
    /// Makes a new cube in a lot, and mounts it: a sub-super block with no accepted command, a closed gate, and in each group the bitmap
    /// and the inode blocks, with the root alone, an empty directory; all settled by a barrier. Memory is taken before any call of the disk.
    pub fn make<D: Disk>(alloc: Global, disk: &mut D, lot: &Lot) -> Result<Cube, MakeFault>
        requires sited { is_sited lot.now (D.state disk.old).size ≡ true }
        // A cube of the lot, without an accepted command, which isn't stopped and holds nothing back.
        ensures starts { IfOk result (λ c. (c.lot ≡ lot.now) × (c.set ≡ []) × (c.done ≡ 0) × (c.stopped ≡ false)) }
        // Want of memory comes before any call of the disk, and a fault of the disk has its cause.
        ensures memory { IsErrOf result Memory → disk.new ≡ disk.old }
        ensures failed { Caused D.state FaultDisk result disk.old disk.new }
        // Only blocks of the lot may change.
        ensures within { Within D.state D.left (extent lot.now) disk.old disk.new }
        // On a disk that tells, the cube holds the empty directory, and every block is settled.
        ensures made { (D.state disk.old).tells ≡ true
            → IfOk result (λ c. Holds form_one Plain (fresh (Dir Nil) 0) c (D.state disk.new)) }
        ensures settled { (D.state disk.old).tells ≡ true → OnOk result (Settled Everywhere (D.state disk.new)) }
    {
        let keep = match JournalKeep::new(alloc) {
            Ok(keep) => keep,
            Err(_) => return Err(MakeFault::Memory),
        };
        match write_fresh(disk, lot) {
            Ok(()) => Ok(Cube::begin(lot.copy(), keep, 0)),
            Err(_) => Err(MakeFault::Disk),
        }
    }
}
