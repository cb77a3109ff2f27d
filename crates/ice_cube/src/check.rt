//! Checks of a mounted cube.
ghost use Rattle.std.specs.Prelude.{◌≡◌, true, false, IfErr};
ghost use Rattle.ice_base.specs.Disk.{Caused};
ghost use Rattle.ice_base.specs.Lots.{LotView, extent, homes, inside, is_sited};
ghost use Rattle.ice_base.specs.Still.{Still};
ghost use Rattle.tree_spec.specs.Own.{Check};
ghost use Rattle.tree_spec.specs.Records.{Cube as Record};
ghost use Rattle.ice_check.specs.Shown.{IsCheckFault, Named};
ghost use Rattle.ice_check.specs.declared.fault.CheckFault.TheVariants.{Disk as CheckDisk};
ghost use Rattle.ice_txn.specs.Sets.{over};
ghost use Rattle.ice_cube.specs.Commands.{AnswersOwn, HoldsRecord, meant_check};

use crate::cube::Cube;
use ice_base::Disk;
use ice_check::{CheckFault, Summary, check};

impl Cube {
    /// Checks the tree with all that was accepted, also what is held back. It writes nothing. Damage stops the cube.
    pub fn check<D: Disk>(&mut self, disk: &mut D) -> Result<Summary, CheckFault>
        requires sited { is_sited self.old.lot (D.state disk.old).size ≡ true }
        requires live { self.old.stopped ≡ false }
        ensures lot { self.new.lot ≡ self.old.lot }
        ensures count { self.new.done ≡ self.old.done }
        // No block changes. A fault of the disk has its cause and stops nothing, and damage that it names may be named.
        ensures still { Still D.state D.left disk.old disk.new }
        ensures failed { Caused D.state CheckDisk result disk.old disk.new }
        ensures named { (D.state disk.old).tells ≡ true
            → IfErr result (Named self.old.lot (inside self.old.lot (over self.old.set (homes self.old.lot (D.state disk.old).now)))) }
        ensures faults { IfErr result IsCheckFault }
        // From each record that it holds, the answer is the record's, and it holds the record after it.
        ensures own { (c : Record) → HoldsRecord self.old (D.state disk.old) c
            → AnswersOwn self.new (D.state disk.new) c Check (meant_check result) }
    {
        match check(&mut self.keep, disk, &self.lot) {
            Ok(summary) => Ok(summary),
            Err(CheckFault::Disk) => Err(CheckFault::Disk),
            Err(CheckFault::Damaged(rule)) => {
                self.stopped = true;
                Err(CheckFault::Damaged(rule))
            }
        }
    }
}
