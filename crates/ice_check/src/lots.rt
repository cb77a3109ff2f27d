//! The check of a lot as its journal leaves it.
ghost use Rattle.std.specs.Prelude.{◌≡◌, ℕ, true, None, Some, IfOk, IfErr, IsErr};
ghost use Rattle.ice_base.specs.Disk.{Caused};
ghost use Rattle.ice_base.specs.Lots.{is_sited};
ghost use Rattle.ice_base.specs.Still.{Still};
ghost use Rattle.tree_spec.specs.Costs.{Form, form_of};
ghost use Rattle.tree_spec.specs.Trees.{Tree};
ghost use Rattle.ice_reads.specs.Tables.{Map};
ghost use Rattle.ice_reads.specs.Recovers.{MapRecovers};
ghost use Rattle.ice_tables.specs.Journals.{effective_of};
ghost use Rattle.ice_check.specs.Shown.{IsDisk, LotNamed, Sums};
ghost use Rattle.ice_check.specs.declared.fault.CheckFault.TheVariants.{Disk as FaultDisk};

use crate::{CheckFault, Summary, check};
use ice_base::{Disk, Lot, Rule};
use ice_journal::{Effective, JournalFault};

/// Checks a lot by its effective blocks: the bodies of an open journal in place of their targets. It writes nothing and takes no memory.
/// Damaged names Header exactly where the gate is open and the header refused, else what `check` names of the effective blocks.
pub fn check_lot<D: Disk>(disk: &mut D, lot: &Lot) -> Result<Summary, CheckFault>
    requires sited { is_sited lot.now (D.state disk.old).size ≡ true }
    // On a disk that tells, the answer is Ok exactly where the effective blocks recover a tree, but for a fault of the disk.
    ensures recovers { (m : Map) → (D.state disk.old).tells ≡ true
        → effective_of lot.now (D.state disk.old).now ≡ Some m → IfOk result (Sums lot.now m) }
    ensures refused { (D.state disk.old).tells ≡ true
        → effective_of lot.now (D.state disk.old).now ≡ None → IsErr result }
    ensures exact { (f : Form) (mode k : ℕ) (t : Tree) (m : Map) → f ≡ form_of f.version
        → (D.state disk.old).tells ≡ true → effective_of lot.now (D.state disk.old).now ≡ Some m
        → MapRecovers f mode lot.now m t k → IfErr result IsDisk }
    // A rule that is named may be named.
    ensures named { (D.state disk.old).tells ≡ true
        → IfErr result (LotNamed lot.now (effective_of lot.now (D.state disk.old).now)) }
    // The disk is as it was, and a fault of the disk has its cause.
    ensures still { Still D.state D.left disk.old disk.new }
    ensures failed { Caused D.state FaultDisk result disk.old disk.new }
{
    match Effective::read(disk, lot) {
        Ok(mut view) => check(&mut view, disk, lot),
        Err(JournalFault::Header) => Err(CheckFault::Damaged(Rule::Header)),
        Err(JournalFault::Disk) => Err(CheckFault::Disk),
    }
}
