//! A commit: the blocks of a write set become those of their addresses, all or none at each crash.
ghost use Rattle.std.specs.Prelude.{is_ok, ◌≡◌, ◌<◌, ◌≤◌, ◌⊎◌, ◌+◌, ◌*◌, ℕ, List, true, length, OnOk, OnErr, IsErrOf};
ghost use Rattle.ice_base.specs.Counts.{Made};
ghost use Rattle.ice_base.specs.Disk.{block, HasCause, Everywhere};
ghost use Rattle.ice_base.specs.Frames.{Within, CrashStep, Moves, Settled};
ghost use Rattle.ice_layout.specs.Headers.{is_open};
ghost use Rattle.ice_txn.specs.Sets.{over};
ghost use Rattle.ice_journal.specs.Areas.{IsAreaOf};
ghost use Rattle.ice_journal.specs.Blocks.{AreHomes, CommitBlocks, HomeBlocks, JournalExtent, LiesBelow};
ghost use Rattle.ice_journal.specs.Phases.{BeforeOrAfter, Full, Idle, IsAtRest};
ghost use Rattle.ice_journal.specs.declared.commits.CommitFault.TheVariants.{Before, After};

use crate::settle::{settle_body, settle_gate, settle_homes};
use crate::{Area, Journal};
use ice_base::{Disk, DiskFault};
use ice_txn::WriteSet;

/// When a disk call of a commit failed. The disk's count of faults says so as well.
#[derive(Clone, Copy, Debug, PartialEq, Eq)]
pub enum CommitFault {
    /// Before the gate was first written: the journal stands for what it stood for, at rest.
    Before = 1,
    /// From that write on: each image that a crash leaves stands for the blocks before or for those after.
    After,
}

/// The gate opened, the homes, the gate closed.
fn finish<D: Disk, J: Journal>(
    disk: &mut D,
    journal: &J,
    area: &Area,
    set: &WriteSet,
) -> Result<(), DiskFault>
    requires area { IsAreaOf area.now (J.reads journal.now) (J.places journal.now) (J.most journal.now) }
    requires few { length set.now.entries ≤ J.most journal.now }
    requires homes { AreHomes (J.places journal.now) set.now.entries }
    requires below { LiesBelow (J.places journal.now) (J.most journal.now) (D.state disk.old).size }
    ensures within { Within D.state D.left (HomeBlocks (J.places journal.now) set.now.entries) disk.old disk.new }
    ensures cause { HasCause (D.state disk.old) (D.state disk.new) result }
    ensures calm { OnOk result ((D.state disk.new).faults ≡ (D.state disk.old).faults) }
    ensures moves { (map : ℕ → List ℕ) → Moves D.state D.left (JournalExtent (J.places journal.now) (J.most journal.now)) result
        (Full (J.reads journal.now) (J.places journal.now) set.now.entries map)
        (BeforeOrAfter (J.reads journal.now) (J.places journal.now) set.now.entries map)
        (Idle (J.places journal.now) (over set.now.entries map)) disk.old disk.new }
    ensures settled { (D.state disk.old).tells ≡ true → OnOk result (Settled Everywhere (D.state disk.new)) }
    ensures late { (D.state disk.old).tells ≡ true
        → OnErr result (((D.state disk.new).loose (J.places journal.now).gate ≡ true)
        ⊎ (is_open (block (D.state disk.new).now (J.places journal.now).gate) ≡ true)) }
    ensures counts { (D.state disk.old).tells ≡ true
        → Made (length set.now.entries + 2) 3 (is_ok result) (D.state disk.old) (D.state disk.new) }
{
    settle_gate(disk, area, true)?;
    settle_homes(disk, journal, set)?;
    settle_gate(disk, area, false)
}

/// Commits a set to a journal that is at rest: bodies and header, the gate opened, the homes, the gate closed, each settled by a
/// barrier before the next. At each crash the addresses hold what they held before, or the blocks of the set as well.
pub fn commit<D: Disk, J: Journal>(
    disk: &mut D,
    journal: &J,
    set: &WriteSet,
) -> Result<(), CommitFault>
    requires some { 1 ≤ length set.now.entries }
    requires few { length set.now.entries ≤ J.most journal.now }
    requires homes { AreHomes (J.places journal.now) set.now.entries }
    requires below { LiesBelow (J.places journal.now) (J.most journal.now) (D.state disk.old).size }
    // Only the gate, the header, as many bodies as the set has blocks, and their homes may change. Faults come from the disk alone.
    ensures within { Within D.state D.left (CommitBlocks (J.places journal.now) set.now.entries) disk.old disk.new }
    ensures cause { HasCause (D.state disk.old) (D.state disk.new) result }
    ensures calm { OnOk result ((D.state disk.new).faults ≡ (D.state disk.old).faults) }
    // From a journal at rest each crash, within the commit or after it, leaves the map before or the map after, and so do reads.
    ensures crash { (map : ℕ → List ℕ) → IsAtRest (J.places journal.now) map (D.state disk.old)
        → CrashStep D.state D.left (JournalExtent (J.places journal.now) (J.most journal.now))
        (BeforeOrAfter (J.reads journal.now) (J.places journal.now) set.now.entries map) disk.old disk.new }
    ensures either { (map : ℕ → List ℕ) → IsAtRest (J.places journal.now) map (D.state disk.old)
        → BeforeOrAfter (J.reads journal.now) (J.places journal.now) set.now.entries map (D.state disk.new).now }
    // An Ok leaves it at rest with the map after, and every block settled.
    ensures done { (map : ℕ → List ℕ) → IsAtRest (J.places journal.now) map (D.state disk.old)
        → OnOk result (IsAtRest (J.places journal.now) (over set.now.entries map) (D.state disk.new)) }
    ensures settled { (D.state disk.old).tells ≡ true → OnOk result (Settled Everywhere (D.state disk.new)) }
    // Before leaves it at rest with the map before; After comes where the gate is loose or open.
    ensures before { (map : ℕ → List ℕ) → IsAtRest (J.places journal.now) map (D.state disk.old)
        → IsErrOf result Before → IsAtRest (J.places journal.now) map (D.state disk.new) }
    ensures late { (D.state disk.old).tells ≡ true → IsErrOf result After
        → ((D.state disk.new).loose (J.places journal.now).gate ≡ true)
        ⊎ (is_open (block (D.state disk.new).now (J.places journal.now).gate) ≡ true) }
    ensures counts { (D.state disk.old).tells ≡ true
        → Made (2 * length set.now.entries + 3) 4 (is_ok result) (D.state disk.old) (D.state disk.new) }
{
    let area = journal.area();
    match settle_body(disk, &area, set) {
        Ok(()) => {}
        Err(_) => return Err(CommitFault::Before),
    }
    match finish(disk, journal, &area, set) {
        Ok(()) => Ok(()),
        Err(_) => Err(CommitFault::After),
    }
}
