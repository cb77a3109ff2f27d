//! The commands of a mounted cube's tree.
ghost use Rattle.std.specs.Prelude.{◌≡◌, ◌≤◌, ℕ, List, Some, [], true, false, length, IfErr, IsErrOf, IsOk, OnErr, OnOk};
ghost use Rattle.ice_base.specs.Disk.{Caused, HasCause};
ghost use Rattle.ice_base.specs.Frames.{CrashStep, Sure, Within};
ghost use Rattle.ice_base.specs.Lots.{extent, is_sited};
ghost use Rattle.ice_base.specs.Still.{Still};
ghost use Rattle.ice_base.specs.declared.fault.Rule.{Rule};
ghost use Rattle.tree_spec.specs.Costs.{Form, form_one};
ghost use Rattle.tree_spec.specs.Lines.{asked};
ghost use Rattle.tree_spec.specs.Operations.{Operation, operation, is_change, paths};
ghost use Rattle.tree_spec.specs.Own.{OnTree};
ghost use Rattle.tree_spec.specs.Records.{Cube as Record, History, Mode};
ghost use Rattle.tree_spec.specs.Replies.{Tallies, meant};
ghost use Rattle.tree_spec.specs.Why.{Why};
ghost use Rattle.tree_spec.specs.declared.reply.Refusal.TheVariants.{Damaged, Fault, Stopped};
ghost use Rattle.ice_journal.specs.Rests.{LotAtRest, RestsLot};
ghost use Rattle.ice_look.specs.Broken.{IsBroken};
ghost use Rattle.ice_look.specs.Outcomes.{meant_plain};
ghost use Rattle.ice_look.specs.Stages.{paths_refusal};
ghost use Rattle.ice_rules.specs.Rules.{rule_number};
ghost use Rattle.ice_txn.specs.Sets.{over};
ghost use Rattle.ice_cube.specs.Called.{RestsWith, is_look};
ghost use Rattle.ice_cube.specs.Commands.{AnswersOwn, HoldsRecord, IsCommand, IsTreeRefusal};
ghost use Rattle.ice_cube.specs.Cubes.{HasHistory, Holds};

use crate::cube::Cube;
use crate::tree_calls::{change_in, check_names, look_at, looks};
use ice_base::{Disk, DiskFault};
use tree_spec::{Command, Refusal, Reply, Room, Value};

/// The number of the last refusal that a tree's model gives. What is refused with a greater one stops the cube.
const LAST_OF_TREES: u8 = 14;

impl Cube {
    /// Looks at the tree. Damage stops the cube.
    fn look<D: Disk>(
        &mut self,
        disk: &mut D,
        command: &Command<'_>,
        depth: usize,
        room: &mut Room,
    ) -> Reply
        // The cube isn't stopped, its lot lies on the disk and has a group, the command is a look, and the room is empty.
        requires live { self.old.stopped ≡ false }
        requires sited { is_sited self.old.lot (D.state disk.old).size ≡ true }
        requires some { 1 ≤ length self.old.lot.groups }
        requires tree { IsCommand depth (asked command.now) }
        requires look { is_look (asked command.now) ≡ true }
        requires bytes { room.old.bytes ≡ [] }
        requires entries { room.old.entries ≡ [] }
        requires rows { room.old.rows ≡ [] }
        ensures lot { self.new.lot ≡ self.old.lot }
        ensures set { IfErr result IsTreeRefusal }
        ensures failed { Caused D.state Fault result disk.old disk.new }
        ensures damaged { (map : ℕ → List ℕ) (n : ℕ) → Sure (RestsLot self.old.lot) (LotAtRest self.old.lot map) (D.state disk.old)
            → IsErrOf result (Damaged n) → (r : Rule) × (n ≡ rule_number r) × IsBroken form_one self.old.lot (over self.old.set map) r }
        ensures tallies { Tallies result room.new }
        ensures still { Still D.state D.left disk.old disk.new }
        ensures own { (c : Record) (op : Operation) → operation depth (asked command.now) ≡ Some op
            → HoldsRecord self.old (D.state disk.old) c
            → AnswersOwn self.new (D.state disk.new) c (OnTree op) (meant result room.new) }
    {
        match look_at(&mut self.keep, disk, &self.lot, command, depth, room) {
            Ok(value) => Ok(value),
            Err(Refusal::Damaged(rule)) => {
                self.stopped = true;
                Err(Refusal::Damaged(rule))
            }
            Err(refusal) => Err(refusal),
        }
    }

    /// Commits where more than 144 blocks are held back, or stops the cube.
    fn make_room<D: Disk>(&mut self, disk: &mut D) -> Result<(), DiskFault>
        requires live { self.old.stopped ≡ false }
        requires sited { is_sited self.old.lot (D.state disk.old).size ≡ true }
        ensures lot { self.new.lot ≡ self.old.lot }
        // An Ok leaves 144 blocks held back at most, and an Err stops it.
        ensures few { OnOk result (length self.new.set ≤ 144) }
        ensures goes_on { OnOk result (self.new.stopped ≡ false) }
        ensures stops { OnErr result (self.new.stopped ≡ true) }
        // Where there is room, nothing happens. Only blocks of the lot may change. Faults come from the disk alone.
        ensures nothing { length self.old.set ≤ 144 → disk.new ≡ disk.old }
        ensures good { length self.old.set ≤ 144 → IsOk result }
        ensures within { Within D.state D.left (extent self.old.lot) disk.old disk.new }
        ensures cause { HasCause (D.state disk.old) (D.state disk.new) result }
        // From a lot at rest an Ok leaves one that shows the same.
        ensures rest { (map : ℕ → List ℕ) → Sure (RestsLot self.old.lot) (LotAtRest self.old.lot map) (D.state disk.old)
            → OnOk result (RestsWith self.old.lot self.new.set (over self.old.set map) (D.state disk.new)) }
        // Each crash leaves what the history has, and the cube holds it after it.
        ensures crash { (f : Form) (mode : Mode) (h : History) → Holds f mode h self.old (D.state disk.old)
            → CrashStep D.state D.left (extent self.old.lot) (HasHistory self.old.lot f mode h) disk.old disk.new }
        ensures holds { (f : Form) (mode : Mode) (h : History) → Holds f mode h self.old (D.state disk.old)
            → Holds f mode h self.new (D.state disk.new) }
    {
        if self.keep.len() <= 144 {
            return Ok(());
        }
        self.settle(disk)
    }

    /// Changes the tree, of which at most 144 blocks are held back. A fault or damage stops the cube.
    fn apply<D: Disk>(
        &mut self,
        disk: &mut D,
        command: &Command<'_>,
        depth: usize,
    ) -> Result<(), Refusal>
        // The cube isn't stopped, its lot lies on the disk and has a group, the command is a change, and there is room.
        requires live { self.old.stopped ≡ false }
        requires sited { is_sited self.old.lot (D.state disk.old).size ≡ true }
        requires some { 1 ≤ length self.old.lot.groups }
        requires tree { IsCommand depth (asked command.now) }
        requires change { is_look (asked command.now) ≡ false }
        requires room { length self.old.set ≤ 144 }
        ensures lot { self.new.lot ≡ self.old.lot }
        ensures set { IfErr result IsTreeRefusal }
        ensures failed { Caused D.state Fault result disk.old disk.new }
        ensures damaged { (map : ℕ → List ℕ) (n : ℕ) → Sure (RestsLot self.old.lot) (LotAtRest self.old.lot map) (D.state disk.old)
            → IsErrOf result (Damaged n) → (r : Rule) × (n ≡ rule_number r) × IsBroken form_one self.old.lot (over self.old.set map) r }
        ensures still { Still D.state D.left disk.old disk.new }
        ensures own { (c : Record) (op : Operation) → operation depth (asked command.now) ≡ Some op
            → HoldsRecord self.old (D.state disk.old) c
            → AnswersOwn self.new (D.state disk.new) c (OnTree op) (meant_plain result) }
    {
        match change_in(
            &mut self.keep,
            &mut self.pool,
            disk,
            &self.lot,
            command,
            depth,
        ) {
            Ok(()) => {
                self.done = self.done.saturating_add(1);
                Ok(())
            }
            Err(refusal) => {
                self.stopped = refusal.number() > LAST_OF_TREES;
                Err(refusal)
            }
        }
    }

    /// Changes the tree, after the refusals that its paths alone show, and a commit where more than 144 blocks are held back.
    fn change<D: Disk>(
        &mut self,
        disk: &mut D,
        command: &Command<'_>,
        depth: usize,
    ) -> Result<(), Refusal>
        // The cube isn't stopped, its lot lies on the disk and has a group, and the command is a change.
        requires live { self.old.stopped ≡ false }
        requires sited { is_sited self.old.lot (D.state disk.old).size ≡ true }
        requires some { 1 ≤ length self.old.lot.groups }
        requires tree { IsCommand depth (asked command.now) }
        requires change { is_look (asked command.now) ≡ false }
        ensures lot { self.new.lot ≡ self.old.lot }
        ensures set { IfErr result IsTreeRefusal }
        ensures failed { Caused D.state Fault result disk.old disk.new }
        ensures damaged { (map : ℕ → List ℕ) (n : ℕ) → Sure (RestsLot self.old.lot) (LotAtRest self.old.lot map) (D.state disk.old)
            → IsErrOf result (Damaged n) → (r : Rule) × (n ≡ rule_number r) × IsBroken form_one self.old.lot (over self.old.set map) r }
        ensures within { Within D.state D.left (extent self.old.lot) disk.old disk.new }
        ensures early { length self.old.set ≤ 144 → Still D.state D.left disk.old disk.new }
        ensures names { (op : Operation) (why : Why) → operation depth (asked command.now) ≡ Some op → paths_refusal form_one (paths op) ≡ Some why
            → (self.new ≡ self.old) × (disk.new ≡ disk.old) }
        ensures own { (c : Record) (op : Operation) → operation depth (asked command.now) ≡ Some op
            → HoldsRecord self.old (D.state disk.old) c
            → AnswersOwn self.new (D.state disk.new) c (OnTree op) (meant_plain result) }
        ensures crash { (f : Form) (mode : Mode) (h : History) → Holds f mode h self.old (D.state disk.old)
            → CrashStep D.state D.left (extent self.old.lot) (HasHistory self.old.lot f mode h) disk.old disk.new }
    {
        if let Err(refusal) = check_names(command, depth) {
            return Err(refusal);
        }
        match self.make_room(disk) {
            Ok(()) => self.apply(disk, command, depth),
            Err(_) => Err(Refusal::Fault),
        }
    }

    /// Answers a command of its tree; `depth` is the number of names of the cube's path. What an accepted one changes is held back.
    /// A changing command commits first where more than 144 blocks are held back, after the refusals that its paths alone show.
    /// Stopped: it was stopped. A fault or damage found in a changing command stops it, and damage found in another one as well.
    pub fn command<D: Disk>(
        &mut self,
        disk: &mut D,
        command: &Command<'_>,
        depth: usize,
        room: &mut Room,
    ) -> Reply
        // The lot lies on the disk and has a group, the command is one of a tree, and the room is empty.
        requires sited { is_sited self.old.lot (D.state disk.old).size ≡ true }
        requires some { 1 ≤ length self.old.lot.groups }
        requires tree { IsCommand depth (asked command.now) }
        requires bytes { room.old.bytes ≡ [] }
        requires entries { room.old.entries ≡ [] }
        requires rows { room.old.rows ≡ [] }
        ensures lot { self.new.lot ≡ self.old.lot }
        // It refuses with Stopped exactly where it was stopped, and nothing happens then, and else as a tree.
        ensures stopped { self.old.stopped ≡ true → IsErrOf result Stopped }
        ensures untouched { self.old.stopped ≡ true → (self.new ≡ self.old) × (disk.new ≡ disk.old) }
        ensures set { self.old.stopped ≡ false → IfErr result IsTreeRefusal }
        ensures failed { Caused D.state Fault result disk.old disk.new }
        // Damage that it names is there, where the lot is at rest.
        ensures damaged { (map : ℕ → List ℕ) (n : ℕ) → Sure (RestsLot self.old.lot) (LotAtRest self.old.lot map) (D.state disk.old)
            → IsErrOf result (Damaged n) → (r : Rule) × (n ≡ rule_number r) × IsBroken form_one self.old.lot (over self.old.set map) r }
        ensures tallies { Tallies result room.new }
        // Only blocks of the lot may change, and none where 144 blocks are held back at most, or by a command that changes nothing.
        ensures within { Within D.state D.left (extent self.old.lot) disk.old disk.new }
        ensures early { length self.old.set ≤ 144 → Still D.state D.left disk.old disk.new }
        ensures looks { (op : Operation) → operation depth (asked command.now) ≡ Some op → is_change op ≡ false
            → Still D.state D.left disk.old disk.new }
        // A change that its paths alone refuse comes before any commit: nothing happens.
        ensures names { (op : Operation) (why : Why) → operation depth (asked command.now) ≡ Some op → is_change op ≡ true
            → paths_refusal form_one (paths op) ≡ Some why → (self.new ≡ self.old) × (disk.new ≡ disk.old) }
        // From each record that it holds, the answer is the record's, and it holds the record after it.
        ensures own { (c : Record) (op : Operation) → operation depth (asked command.now) ≡ Some op
            → HoldsRecord self.old (D.state disk.old) c
            → AnswersOwn self.new (D.state disk.new) c (OnTree op) (meant result room.new) }
        // Each crash leaves what the history before it has.
        ensures crash { (f : Form) (mode : Mode) (h : History) → Holds f mode h self.old (D.state disk.old)
            → CrashStep D.state D.left (extent self.old.lot) (HasHistory self.old.lot f mode h) disk.old disk.new }
    {
        if self.stopped {
            return Err(Refusal::Stopped);
        }
        if looks(command) {
            return self.look(disk, command, depth, room);
        }
        match self.change(disk, command, depth) {
            Ok(()) => Ok(Value::Plain),
            Err(refusal) => Err(refusal),
        }
    }
}
