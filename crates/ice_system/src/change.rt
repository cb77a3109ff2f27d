//! Changes of the tables.
ghost use Rattle.std.specs.Prelude.{◌≡◌, ◌≢◌, ◌≤◌, ◌<◌, ◌⊎◌, ℕ, List, [], Option, None, Some, true, false, length, OnOk, IsErrOf, IsSome};
ghost use Rattle.tree_spec.specs.Names.{text_of};
ghost use Rattle.ice_base.specs.Disk.{Rose, HasCause};
ghost use Rattle.ice_base.specs.Frames.{Within, Sure};
ghost use Rattle.ice_layout.specs.Headers.{is_table};
ghost use Rattle.ice_tables.specs.Tables.{Tables, Row};
ghost use Rattle.ice_tables.specs.Lots.{IsTable, AtRest, groups_of, total};
ghost use Rattle.ice_txn.specs.Sets.{holds};
ghost use Rattle.ice_names.specs.Names.{marked, row_at};
ghost use Rattle.ice_names.specs.declared.mark.Mark.TheVariants.{Free};
ghost use Rattle.ice_owner.specs.Owners.{AreLots};
ghost use Rattle.ice_system.specs.Says.{IsChange};
ghost use Rattle.ice_system.specs.Systems.{AreTables, tables_of, tables_with};
ghost use Rattle.ice_system.specs.Plans.{PlansCreate, PlansGrow};
ghost use Rattle.ice_system.specs.Changes.{Changes, HasChanges, MovesTables};
ghost use Rattle.ice_system.specs.declared.fault.SystemFault.TheVariants.{Before, After};

use crate::System;
use crate::fault::SystemFault;
use crate::gather::gather;
use ice_base::{Disk, Lot};
use ice_journal::{CommitFault, SystemJournal, commit};
use ice_names::{Mark, Names};
use ice_owner::Owners;
use ice_txn::WriteSet;
use tree_spec::Path;

/// Commits the gathered blocks. Where there are none, the tables are as they shall be.
fn commit_set<D: Disk>(disk: &mut D, set: &WriteSet) -> Result<(), SystemFault>
    requires below { 19 ≤ (D.state disk.old).size }
    requires few { length set.now.entries ≤ 8 }
    requires homes { (a : ℕ) → holds set.now.entries a ≡ true → is_table a ≡ true }
    ensures within { Within D.state D.left IsChange disk.old disk.new }
    ensures cause { HasCause (D.state disk.old) (D.state disk.new) result }
    ensures calm { OnOk result ((D.state disk.new).faults ≡ (D.state disk.old).faults) }
    ensures moves { (t u : Tables) → HasChanges t u set.now.entries → u.slots ≡ t.slots → u.groups ≡ t.groups
        → Sure IsTable (AtRest t) (D.state disk.old) → MovesTables D.state D.left t u result disk.old disk.new }
{
    if set.len() == 0 {
        return Ok(());
    }
    match commit(disk, &SystemJournal, set) {
        Ok(()) => Ok(()),
        Err(CommitFault::Before) => Err(SystemFault::Before),
        Err(CommitFault::After) => Err(SystemFault::After),
    }
}

impl System {
    /// Makes these rows and groups the tables. They are kept where all went well.
    fn change<D: Disk>(
        &mut self,
        disk: &mut D,
        names: Names,
        owners: Owners,
    ) -> Result<(), SystemFault>
        requires ready { self.old.failed ≡ false }
        requires tables { AreTables names owners }
        requires slots { names.slots ≡ self.old.names.slots }
        requires groups { owners.groups ≡ self.old.owners.groups }
        requires below { 19 ≤ (D.state disk.old).size }
        ensures within { Within D.state D.left IsChange disk.old disk.new }
        ensures cause { HasCause (D.state disk.old) (D.state disk.new) result }
        ensures calm { OnOk result ((D.state disk.new).faults ≡ (D.state disk.old).faults) }
        ensures done { OnOk result (self.new ≡ record { names = names; owners = owners; failed = false }) }
        ensures before { IsErrOf result Before → self.new ≡ self.old }
        ensures after { IsErrOf result After → self.new ≡ record self.old { failed = true } }
        ensures moves { Sure IsTable (AtRest (tables_of self.old)) (D.state disk.old)
            → MovesTables D.state D.left (tables_of self.old) (tables_with names owners) result disk.old disk.new }
    {
        gather(&mut self.set, &self.names, &self.owners, &names, &owners);
        match commit_set(disk, &self.set) {
            Ok(()) => {
                self.names = names;
                self.owners = owners;
                Ok(())
            }
            Err(SystemFault::Before) => Err(SystemFault::Before),
            Err(SystemFault::After) => {
                self.failed = true;
                Err(SystemFault::After)
            }
        }
    }

    /// Gives a new cube of this path the planned lot, online. What the lot's blocks hold is no matter of the tables.
    pub fn create<D: Disk>(
        &mut self,
        disk: &mut D,
        path: &Path,
        lot: &Lot,
    ) -> Result<(), SystemFault>
        requires below { total (tables_of self.old) ≤ (D.state disk.old).size }
        requires short { length (text_of path.now) ≤ 199 }
        requires planned { (n : ℕ) × (1 ≤ n) × PlansCreate (tables_of self.old) path.now n lot.now }
        ensures { Changes D.state D.left lot.now.slot (Some (record { path = path.now; offline = false })) lot.now.groups
            self.old self.new result disk.old disk.new }
    {
        if self.failed {
            return Err(SystemFault::After);
        }
        let slot = lot.slot();
        let mut names = self.names.copy();
        let mut owners = self.owners.copy();
        names.add(slot, path);
        match owners.reserve(slot, u32::from(lot.len())) {
            Ok(()) => self.change(disk, names, owners),
            Err(_) => unreachable!(),
        }
    }

    /// Gives the cube of a slot the planned lot, which begins with its own groups.
    pub fn grow<D: Disk>(&mut self, disk: &mut D, slot: u8, lot: &Lot) -> Result<(), SystemFault>
        requires below { total (tables_of self.old) ≤ (D.state disk.old).size }
        requires slot { slot < self.old.names.slots }
        requires live { IsSome (row_at self.old.names slot) }
        requires planned { (n : ℕ) × (1 ≤ n) × PlansGrow (tables_of self.old) slot n lot.now }
        ensures { Changes D.state D.left slot (row_at self.old.names slot) lot.now.groups
            self.old self.new result disk.old disk.new }
    {
        if self.failed {
            return Err(SystemFault::After);
        }
        let more = lot.len() - self.lot(slot).len();
        let names = self.names.copy();
        let mut owners = self.owners.copy();
        match owners.reserve(slot, u32::from(more)) {
            Ok(()) => self.change(disk, names, owners),
            Err(_) => unreachable!(),
        }
    }

    /// Takes the cube of a slot away: the slot and its groups are free then.
    pub fn delete<D: Disk>(&mut self, disk: &mut D, slot: u8) -> Result<(), SystemFault>
        requires below { total (tables_of self.old) ≤ (D.state disk.old).size }
        requires slot { slot < self.old.names.slots }
        ensures { Changes D.state D.left slot None [] self.old self.new result disk.old disk.new }
    {
        if self.failed {
            return Err(SystemFault::After);
        }
        let mut names = self.names.copy();
        let mut owners = self.owners.copy();
        names.clear_row(slot);
        owners.release(slot);
        self.change(disk, names, owners)
    }

    /// Marks the cube of a slot as online or offline.
    pub fn set_mark<D: Disk>(
        &mut self,
        disk: &mut D,
        slot: u8,
        mark: Mark,
    ) -> Result<(), SystemFault>
        requires below { total (tables_of self.old) ≤ (D.state disk.old).size }
        requires slot { slot < self.old.names.slots }
        requires live { IsSome (row_at self.old.names slot) }
        requires mark { mark ≢ Free }
        ensures { Changes D.state D.left slot (marked mark (row_at self.old.names slot)) (groups_of (tables_of self.old) slot)
            self.old self.new result disk.old disk.new }
    {
        if self.failed {
            return Err(SystemFault::After);
        }
        let mut names = self.names.copy();
        let owners = self.owners.copy();
        names.set_mark(slot, mark);
        self.change(disk, names, owners)
    }
}
