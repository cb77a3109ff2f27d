//! Mounts of lots.
ghost use Rattle.std.specs.Prelude.{◌≡◌, ℕ, List, [], true, false, Some, None, OnOk, IfOk, IfErr, IsErrOf};
ghost use Rattle.ice_base.specs.Disk.{Caused, Nowhere};
ghost use Rattle.ice_base.specs.Frames.{CrashStep, Every, Settled, Sure, Within};
ghost use Rattle.ice_base.specs.Lots.{extent, is_sited};
ghost use Rattle.ice_base.specs.Still.{Still};
ghost use Rattle.tree_spec.specs.Costs.{Form};
ghost use Rattle.tree_spec.specs.Records.{History, Mode, fresh};
ghost use Rattle.tree_spec.specs.Trees.{Tree};
ghost use Rattle.ice_tables.specs.Journals.{effective_of};
ghost use Rattle.ice_journal.specs.Rests.{LotAtRest, RestsLot};
ghost use Rattle.ice_journal.specs.declared.effective.JournalFault.TheVariants.{Disk as JournalDisk, Header};
ghost use Rattle.ice_images.specs.Recovering.{Recovers, RecoversNothing};
ghost use Rattle.ice_cube.specs.Cubes.{HasHistory, Holds};
ghost use Rattle.ice_cube.specs.Mounting.{KeepsBlocks, RecoversSome, TellsDamage, UnwrittenIfDamaged};
ghost use Rattle.ice_cube.specs.declared.fault.CubeFault.TheVariants.{Disk as FaultDisk, Memory};

use crate::cube::Cube;
use crate::fault::CubeFault;
use ice_base::{Disk, Lot};
use ice_check::{CheckFault, check_lot};
use ice_journal::{Effective, JournalFault};
use ice_keep::JournalKeep;
use ice_recover::replay;
use std::alloc::Global;

/// Replays the journal of a lot where its gate is open. Header: the gate is open and the header refused.
fn recover<D: Disk>(disk: &mut D, lot: &Lot) -> Result<(), JournalFault>
    requires sited { is_sited lot.now (D.state disk.old).size ≡ true }
    // Only blocks of the lot may change, and none where the header is refused. A fault of the disk has its cause.
    ensures within { Within D.state D.left (extent lot.now) disk.old disk.new }
    ensures unwritten { IsErrOf result Header → Still D.state D.left disk.old disk.new }
    ensures refused { (D.state disk.old).tells ≡ true → IsErrOf result Header
        → effective_of lot.now (D.state disk.old).now ≡ None }
    ensures failed { Caused D.state JournalDisk result disk.old disk.new }
    // Where no block of the lot is loose, no crash changes its effective blocks, and an Ok leaves it at rest with them.
    ensures crash { Settled (extent lot.now) (D.state disk.old) → KeepsBlocks D.state D.left lot.now disk.old disk.new }
    ensures rest { (map : ℕ → List ℕ) → Settled (extent lot.now) (D.state disk.old)
        → effective_of lot.now (D.state disk.old).now ≡ Some map
        → OnOk result (Sure (RestsLot lot.now) (LotAtRest lot.now map) (D.state disk.new)) }
{
    let view = match Effective::read(disk, lot) {
        Ok(view) => view,
        Err(fault) => return Err(fault),
    };
    if !view.is_pending() {
        return Ok(());
    }
    match replay(disk, lot, &view) {
        Ok(()) => Ok(()),
        Err(_) => Err(JournalFault::Disk),
    }
}

/// Checks a lot of which no block is loose, and replays its journal. Ok is the count that it recovers.
fn take_up<D: Disk>(disk: &mut D, lot: &Lot) -> Result<u64, CubeFault>
    requires sited { is_sited lot.now (D.state disk.old).size ≡ true }
    // Only blocks of the lot may change, and none where it is damaged. A fault of the disk has its cause.
    ensures within { Within D.state D.left (extent lot.now) disk.old disk.new }
    ensures unwritten { IfErr result (UnwrittenIfDamaged D.state D.left disk.old disk.new) }
    // A lot that recovers nothing isn't written, whatever the answer.
    ensures idle { (D.state disk.old).tells ≡ true → RecoversNothing lot.now (D.state disk.old).now
        → Within D.state D.left Nowhere disk.old disk.new }
    ensures failed { Caused D.state FaultDisk result disk.old disk.new }
    ensures never { ¬ IsErrOf result Memory }
    // On a disk that tells: Ok says the count that the lot recovers, and damage is there.
    ensures recovered { (D.state disk.old).tells ≡ true
        → IfOk result (RecoversSome lot.now (D.state disk.old).now) }
    ensures damaged { (D.state disk.old).tells ≡ true
        → IfErr result (TellsDamage lot.now (D.state disk.old).now) }
    // Where no block of the lot is loose, no crash changes its effective blocks, and an Ok leaves it at rest with them.
    ensures crash { Settled (extent lot.now) (D.state disk.old) → KeepsBlocks D.state D.left lot.now disk.old disk.new }
    ensures rest { (map : ℕ → List ℕ) → Settled (extent lot.now) (D.state disk.old)
        → effective_of lot.now (D.state disk.old).now ≡ Some map
        → OnOk result (Sure (RestsLot lot.now) (LotAtRest lot.now map) (D.state disk.new)) }
{
    let summary = match check_lot(disk, lot) {
        Ok(summary) => summary,
        Err(CheckFault::Disk) => return Err(CubeFault::Disk),
        Err(CheckFault::Damaged(rule)) => return Err(CubeFault::Damaged(rule)),
    };
    match recover(disk, lot) {
        Ok(()) => Ok(summary.done),
        Err(JournalFault::Disk) => Err(CubeFault::Disk),
        Err(JournalFault::Header) => Err(CubeFault::Damaged(ice_base::Rule::Header)),
    }
}

impl Cube {
    /// Mounts a lot: a barrier, a check, and a replay where the gate is open. Memory is taken before any call of the disk.
    /// A damaged lot is not written.
    pub fn mount<D: Disk>(alloc: Global, disk: &mut D, lot: &Lot) -> Result<Cube, CubeFault>
        requires sited { is_sited lot.now (D.state disk.old).size ≡ true }
        // A cube of the lot, which isn't stopped and holds nothing back.
        ensures starts { IfOk result (λ c. (c.lot ≡ lot.now) × (c.set ≡ []) × (c.stopped ≡ false)) }
        // Want of memory comes before any call of the disk, and a fault of the disk has its cause.
        ensures memory { IsErrOf result Memory → disk.new ≡ disk.old }
        ensures failed { Caused D.state FaultDisk result disk.old disk.new }
        // Only blocks of the lot may change, and none where it is damaged.
        ensures within { Within D.state D.left (extent lot.now) disk.old disk.new }
        ensures unwritten { IfErr result (UnwrittenIfDamaged D.state D.left disk.old disk.new) }
        // A lot that recovers nothing isn't written, whatever the answer.
        ensures idle { (D.state disk.old).tells ≡ true → RecoversNothing lot.now (D.state disk.old).now
            → Within D.state D.left Nowhere disk.old disk.new }
        // On a disk that tells: Ok says the count that the lot recovers, and damage is there.
        ensures recovered { (D.state disk.old).tells ≡ true
            → IfOk result (λ c. RecoversSome lot.now (D.state disk.old).now c.done) }
        ensures damaged { (D.state disk.old).tells ≡ true
            → IfErr result (TellsDamage lot.now (D.state disk.old).now) }
        // The cube holds the tree that the lot recovers, and each crash leaves what each image had before.
        ensures mounted { (f : Form) (mode : Mode) (t : Tree) (k : ℕ) → (D.state disk.old).tells ≡ true
            → Recovers lot.now (D.state disk.old).now f mode t k
            → IfOk result (λ c. Holds f mode (fresh t k) c (D.state disk.new)) }
        ensures crash { (f : Form) (mode : Mode) (h : History) → (D.state disk.old).tells ≡ true
            → Every (extent lot.now) (D.state disk.old) (HasHistory lot.now f mode h)
            → CrashStep D.state D.left (extent lot.now) (HasHistory lot.now f mode h) disk.old disk.new }
    {
        let keep = match JournalKeep::new(alloc) {
            Ok(keep) => keep,
            Err(_) => return Err(CubeFault::Memory),
        };
        match disk.barrier() {
            Ok(()) => {}
            Err(_) => return Err(CubeFault::Disk),
        }
        match take_up(disk, lot) {
            Ok(done) => Ok(Cube::begin(lot.copy(), keep, done)),
            Err(fault) => Err(fault),
        }
    }
}
