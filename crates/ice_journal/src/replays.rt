//! A replay: the bodies of an open journal become the homes of their targets, and the gate is closed.
ghost use Rattle.std.specs.Prelude.{is_ok, ◌≡◌, ◌<◌, ◌⊎◌, ◌+◌, ℕ, List, true, length, OnOk, OnErr};
ghost use Rattle.ice_base.specs.Counts.{Made};
ghost use Rattle.ice_base.specs.Disk.{HasCause, Everywhere};
ghost use Rattle.ice_base.specs.Frames.{Within, CrashStep, Settled};
ghost use Rattle.ice_layout.specs.Headers.{AreTargets};
ghost use Rattle.ice_journal.specs.Blocks.{JournalExtent, LiesBelow, ReplayBlocks};
ghost use Rattle.ice_journal.specs.Phases.{IsAtRest, IsPending, StandsFor};

use crate::Journal;
use crate::settle::{settle_gate, settle_targets};
use ice_base::{Disk, DiskFault};

/// Replays an open journal whose header names these targets, no block of which is loose: the homes from the bodies, a barrier, the gate
/// closed, a barrier. What the journal stands for doesn't change, at any crash within or after it.
pub fn replay<D: Disk, J: Journal>(
    disk: &mut D,
    journal: &J,
    targets: &[u32],
) -> Result<(), DiskFault>
    requires targets { AreTargets (J.most journal.now) (J.places journal.now).home targets.now }
    requires below { LiesBelow (J.places journal.now) (J.most journal.now) (D.state disk.old).size }
    // Only the gate and the homes of the targets may change. Faults come from the disk alone.
    ensures within { Within D.state D.left (ReplayBlocks (J.places journal.now) targets.now) disk.old disk.new }
    ensures cause { HasCause (D.state disk.old) (D.state disk.new) result }
    ensures calm { OnOk result ((D.state disk.new).faults ≡ (D.state disk.old).faults) }
    // Where the journal is open, names these targets and is settled: each crash leaves what stands for the same map.
    ensures crash { (map : ℕ → List ℕ) → Settled (JournalExtent (J.places journal.now) (J.most journal.now)) (D.state disk.old)
        → IsPending (J.reads journal.now) (J.places journal.now) targets.now (D.state disk.old).now
        → StandsFor (J.reads journal.now) (J.places journal.now) map (D.state disk.old).now
        → CrashStep D.state D.left (JournalExtent (J.places journal.now) (J.most journal.now))
        (StandsFor (J.reads journal.now) (J.places journal.now) map) disk.old disk.new }
    // An Ok leaves the journal at rest with that map, and every block settled.
    ensures done { (map : ℕ → List ℕ) → Settled (JournalExtent (J.places journal.now) (J.most journal.now)) (D.state disk.old)
        → IsPending (J.reads journal.now) (J.places journal.now) targets.now (D.state disk.old).now
        → StandsFor (J.reads journal.now) (J.places journal.now) map (D.state disk.old).now
        → OnOk result (IsAtRest (J.places journal.now) map (D.state disk.new)) }
    ensures settled { (D.state disk.old).tells ≡ true → OnOk result (Settled Everywhere (D.state disk.new)) }
    // After an Err the gate is loose, or the journal is open as before and names the same targets.
    ensures late { (D.state disk.old).tells ≡ true
        → IsPending (J.reads journal.now) (J.places journal.now) targets.now (D.state disk.old).now
        → OnErr result (((D.state disk.new).loose (J.places journal.now).gate ≡ true)
        ⊎ IsPending (J.reads journal.now) (J.places journal.now) targets.now (D.state disk.new).now) }
    ensures counts { (D.state disk.old).tells ≡ true
        → Made (length targets.now + 1) 2 (is_ok result) (D.state disk.old) (D.state disk.new) }
{
    let area = journal.area();
    settle_targets(disk, journal, &area, targets)?;
    settle_gate(disk, &area, false)
}
