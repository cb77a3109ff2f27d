//! One mounted cube.
ghost use Rattle.std.specs.Prelude.{is_ok, ◌≡◌, ◌≤◌, ◌+◌, ◌*◌, ℕ, List, [], true, false, length, OnOk, OnErr, IfOk, IfErr, IsErrOf};
ghost use Rattle.ice_base.specs.Counts.{Made};
ghost use Rattle.ice_base.specs.Disk.{HasCause, Caused};
ghost use Rattle.ice_base.specs.Frames.{CrashStep, Every, Sure, Within};
ghost use Rattle.ice_base.specs.Lots.{extent, is_sited};
ghost use Rattle.tree_spec.specs.Costs.{Form};
ghost use Rattle.tree_spec.specs.Records.{History, Mode, settled};
ghost use Rattle.tree_spec.specs.declared.reply.Refusal.TheVariants.{Fault, Stopped};
ghost use Rattle.ice_journal.specs.Rests.{LotAtRest, RestsLot};
ghost use Rattle.ice_txn.specs.Sets.{over};
ghost use Rattle.ice_cube.specs.Cubes.{CubeView, HasHistory, Holds};

use ice_base::{Disk, DiskFault, Lot};
use ice_keep::JournalKeep;
use ice_pool::BitPool;
use std::marker::Model;
use tree_spec::Refusal;

/// A mounted cube. What its commands change is held back until a commit.
#[derive(Drop)]
pub struct Cube {
    pub(crate) lot: Lot,
    pub(crate) keep: JournalKeep,
    pub(crate) pool: BitPool,
    pub(crate) done: u64,
    pub(crate) stopped: bool,
}

impl Model for Cube {
    ghost use Rattle.std.specs.Prelude.{◌≡◌};
    ghost use Rattle.ice_tables.specs.Journals.{lot_places};
    ghost use Rattle.ice_journal.specs.Blocks.{AreHomes};
    ghost use Rattle.ice_cube.specs.Cubes.{CubeView};

    ghost Value = { CubeView };

    ghost view = { λ c. record { lot = c.lot; set = c.keep.entries; done = c.done; stopped = c.stopped } };

    ghost invariant = { λ c. AreHomes (lot_places c.lot) c.keep.entries };
}

impl Cube {
    /// The cube of a lot that is at rest, with this count.
    pub(crate) fn begin(lot: Lot, keep: JournalKeep, done: u64) -> Cube
        requires { keep.entries ≡ [] }
        ensures { result ≡ record { lot = lot; set = []; done = done; stopped = false } }
    {
        Cube {
            lot,
            keep,
            pool: BitPool::new(),
            done,
            stopped: false,
        }
    }

    /// The number of accepted commands.
    pub fn done(&self) -> u64
        ensures { result ≡ self.now.done }
    {
        self.done
    }

    /// Whether a fault or damage stopped it.
    pub fn is_stopped(&self) -> bool
        ensures { result ≡ self.now.stopped }
    {
        self.stopped
    }

    /// Commits what the cube holds back, or stops it.
    pub(crate) fn settle<D: Disk>(&mut self, disk: &mut D) -> Result<(), DiskFault>
        requires live { self.old.stopped ≡ false }
        requires sited { is_sited self.old.lot (D.state disk.old).size ≡ true }
        ensures lot { self.new.lot ≡ self.old.lot }
        ensures count { self.new.done ≡ self.old.done }
        // An Ok leaves nothing held back, and an Err stops it.
        ensures emptied { OnOk result (self.new.set ≡ []) }
        ensures goes_on { OnOk result (self.new.stopped ≡ false) }
        ensures stops { OnErr result (self.new.stopped ≡ true) }
        // Where nothing is held back, nothing happens.
        ensures nothing { self.old.set ≡ [] → disk.new ≡ disk.old }
        // Only blocks of the lot may change. Faults come from the disk alone.
        ensures within { Within D.state D.left (extent self.old.lot) disk.old disk.new }
        ensures cause { HasCause (D.state disk.old) (D.state disk.new) result }
        // From a lot at rest an Ok leaves it at rest with all changes.
        ensures rest { (map : ℕ → List ℕ) → Sure (RestsLot self.old.lot) (LotAtRest self.old.lot map) (D.state disk.old)
            → OnOk result (Sure (RestsLot self.old.lot) (LotAtRest self.old.lot (over self.old.set map)) (D.state disk.new)) }
        // Each crash leaves what the history has. An Ok settles it, and an Err leaves it.
        ensures crash { (f : Form) (mode : Mode) (h : History) → Holds f mode h self.old (D.state disk.old)
            → CrashStep D.state D.left (extent self.old.lot) (HasHistory self.old.lot f mode h) disk.old disk.new }
        ensures settled { (f : Form) (mode : Mode) (h : History) → Holds f mode h self.old (D.state disk.old)
            → OnOk result (Holds f mode (settled h) self.new (D.state disk.new)) }
        ensures kept { (f : Form) (mode : Mode) (h : History) → Holds f mode h self.old (D.state disk.old)
            → OnErr result (Holds f mode h self.new (D.state disk.new)) }
        // Where it held m blocks back: 2 m + 3 writes and 4 barriers.
        ensures counts { (D.state disk.old).tells ≡ true → 1 ≤ length self.old.set
            → Made (2 * length self.old.set + 3) 4 (is_ok result) (D.state disk.old) (D.state disk.new) }
    {
        // This call tells the prover that no more than 240 blocks are held.
        let _ = self.keep.len();
        match self.keep.commit(disk, &self.lot) {
            Ok(()) => Ok(()),
            Err(fault) => {
                self.stopped = true;
                Err(fault)
            }
        }
    }

    /// Makes everything that was accepted outlive a crash. Ok is the number of accepted commands.
    /// Stopped: it was stopped. Fault: the disk failed, and the cube is stopped.
    pub fn sync<D: Disk>(&mut self, disk: &mut D) -> Result<u64, Refusal>
        requires sited { is_sited self.old.lot (D.state disk.old).size ≡ true }
        ensures lot { self.new.lot ≡ self.old.lot }
        ensures count { self.new.done ≡ self.old.done }
        ensures answer { IfOk result (λ k. k ≡ self.old.done) }
        // It refuses with Stopped exactly where it was stopped, and calls no disk then, and else with Fault alone.
        ensures stopped { self.old.stopped ≡ true → IsErrOf result Stopped }
        ensures untouched { self.old.stopped ≡ true → disk.new ≡ disk.old }
        ensures only { self.old.stopped ≡ false → IfErr result (λ r. r ≡ Fault) }
        ensures failed { Caused D.state Fault result disk.old disk.new }
        // An Ok leaves nothing held back, and a refusal a stopped cube.
        ensures emptied { OnOk result (self.new.set ≡ []) }
        ensures goes_on { OnOk result (self.new.stopped ≡ false) }
        ensures stops { OnErr result (self.new.stopped ≡ true) }
        // Where nothing is held back, nothing happens. Only blocks of the lot may change.
        ensures nothing { self.old.set ≡ [] → disk.new ≡ disk.old }
        ensures within { Within D.state D.left (extent self.old.lot) disk.old disk.new }
        // Each crash leaves what the history has. An Ok settles it, and a refusal leaves it.
        ensures crash { (f : Form) (mode : Mode) (h : History) → Holds f mode h self.old (D.state disk.old)
            → CrashStep D.state D.left (extent self.old.lot) (HasHistory self.old.lot f mode h) disk.old disk.new }
        ensures settled { (f : Form) (mode : Mode) (h : History) → Holds f mode h self.old (D.state disk.old)
            → OnOk result (Holds f mode (settled h) self.new (D.state disk.new)) }
        ensures kept { (f : Form) (mode : Mode) (h : History) → Holds f mode h self.old (D.state disk.old)
            → OnErr result (Holds f mode h self.new (D.state disk.new)) }
        // Where it held m blocks back: 2 m + 3 writes and 4 barriers.
        ensures counts { (D.state disk.old).tells ≡ true → self.old.stopped ≡ false → 1 ≤ length self.old.set
            → Made (2 * length self.old.set + 3) 4 (is_ok result) (D.state disk.old) (D.state disk.new) }
    {
        if self.stopped {
            return Err(Refusal::Stopped);
        }
        match self.settle(disk) {
            Ok(()) => Ok(self.done),
            Err(_) => Err(Refusal::Fault),
        }
    }

    /// A sync, after which the cube is given up, whatever it answers.
    pub fn unmount<D: Disk>(self, disk: &mut D) -> Result<u64, Refusal>
        requires sited { is_sited self.lot (D.state disk.old).size ≡ true }
        ensures answer { IfOk result (λ k. k ≡ self.done) }
        // It refuses with Stopped exactly where it was stopped, and calls no disk then, and else with Fault alone.
        ensures stopped { self.stopped ≡ true → IsErrOf result Stopped }
        ensures untouched { self.stopped ≡ true → disk.new ≡ disk.old }
        ensures only { self.stopped ≡ false → IfErr result (λ r. r ≡ Fault) }
        ensures failed { Caused D.state Fault result disk.old disk.new }
        // Where nothing is held back, nothing happens. Only blocks of the lot may change.
        ensures nothing { self.set ≡ [] → disk.new ≡ disk.old }
        ensures within { Within D.state D.left (extent self.lot) disk.old disk.new }
        // Each crash leaves what the history has. An Ok settles it: each image then has all that was accepted.
        ensures crash { (f : Form) (mode : Mode) (h : History) → Holds f mode h self (D.state disk.old)
            → CrashStep D.state D.left (extent self.lot) (HasHistory self.lot f mode h) disk.old disk.new }
        ensures settled { (f : Form) (mode : Mode) (h : History) → Holds f mode h self (D.state disk.old)
            → OnOk result (Every (extent self.lot) (D.state disk.new) (HasHistory self.lot f mode (settled h))) }
    {
        let mut cube = self;
        cube.sync(disk)
    }
}
