//! A replay of a lot's journal, by what it read as.
ghost use Rattle.std.specs.Prelude.{is_ok, ◌≡◌, ◌⊎◌, ◌+◌, ℕ, List, Some, true, length, OnOk, OnErr};
ghost use Rattle.ice_base.specs.Counts.{Made};
ghost use Rattle.ice_base.specs.Disk.{HasCause, Everywhere};
ghost use Rattle.ice_base.specs.Frames.{Within, CrashStep, Settled, Sure};
ghost use Rattle.ice_base.specs.Lots.{extent, gate_place, is_sited};
ghost use Rattle.ice_tables.specs.Journals.{effective_of, lot_places};
ghost use Rattle.ice_journal.specs.Blocks.{JournalExtent, ReplayBlocks};
ghost use Rattle.ice_journal.specs.Rests.{LotAtRest, RestsLot};
ghost use Rattle.ice_journal.specs.Shown.{are_some, targets_now, AreNoneOrTargets};
ghost use Rattle.ice_recover.specs.Reads.{ReadsAs};

use ice_base::{Disk, DiskFault, Lot};
use ice_journal::Effective;

/// Replays the open journal of a lot, which read as this view: the homes from the bodies, a barrier, the gate closed, a barrier. What the
/// lot stands for doesn't change, at any crash within or after it, so that it can be begun again.
pub fn replay<D: Disk>(disk: &mut D, lot: &Lot, view: &Effective) -> Result<(), DiskFault>
    requires sited { is_sited lot.now (D.state disk.old).size ≡ true }
    requires targets { AreNoneOrTargets lot.now view.now }
    requires pending { are_some view.now ≡ true }
    // Only the gate and the homes of the targets may change. Faults come from the disk alone.
    ensures within { Within D.state D.left (ReplayBlocks (lot_places lot.now) view.now) disk.old disk.new }
    ensures cause { HasCause (D.state disk.old) (D.state disk.new) result }
    ensures calm { OnOk result ((D.state disk.new).faults ≡ (D.state disk.old).faults) }
    // Where it reads as this view now, and no block of the lot is loose: no crash, within the call or after it, changes the effective
    // blocks, and nor do reads.
    ensures crash { Sure (extent lot.now) (ReadsAs lot.now view.now) (D.state disk.old)
        → CrashStep D.state D.left (JournalExtent (lot_places lot.now) 240)
        (λ i. effective_of lot.now i ≡ effective_of lot.now (D.state disk.old).now) disk.old disk.new }
    ensures same { Sure (extent lot.now) (ReadsAs lot.now view.now) (D.state disk.old)
        → effective_of lot.now (D.state disk.new).now ≡ effective_of lot.now (D.state disk.old).now }
    // An Ok leaves the lot at rest with them, and every block settled.
    ensures done { (map : ℕ → List ℕ) → Sure (extent lot.now) (ReadsAs lot.now view.now) (D.state disk.old)
        → effective_of lot.now (D.state disk.old).now ≡ Some map
        → OnOk result (Sure (RestsLot lot.now) (LotAtRest lot.now map) (D.state disk.new)) }
    ensures settled { (D.state disk.old).tells ≡ true → OnOk result (Settled Everywhere (D.state disk.new)) }
    // After an Err the gate is loose, or the journal still reads as this view.
    ensures late { (D.state disk.old).tells ≡ true → ReadsAs lot.now view.now (D.state disk.old).now
        → OnErr result (((D.state disk.new).loose (gate_place lot.now) ≡ true)
        ⊎ ReadsAs lot.now view.now (D.state disk.new).now) }
    ensures counts { (D.state disk.old).tells ≡ true
        → Made (length view.now + 1) 2 (is_ok result) (D.state disk.old) (D.state disk.new) }
{
    // This call tells the prover that the lot is one.
    let _ = lot.len();
    ice_journal::replay(disk, lot, view.targets())
}
