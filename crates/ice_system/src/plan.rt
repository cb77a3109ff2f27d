//! The lot that a cube would get.
ghost use Rattle.std.specs.Prelude.{◌≡◌, ◌≤◌, ◌<◌, length, IfOk, IfErr, IsSome};
ghost use Rattle.tree_spec.specs.Names.{text_of};
ghost use Rattle.ice_names.specs.Names.{row_at};
ghost use Rattle.ice_owner.specs.Owners.{AreLots, groups_at};
ghost use Rattle.ice_tables.specs.Lots.{groups_of};
ghost use Rattle.ice_system.specs.Systems.{tables_of};
ghost use Rattle.ice_system.specs.Plans.{PlansCreate, PlansGrow, RefusesCreate, RefusesGroups};

use crate::System;
use ice_base::Lot;
use ice_owner::OwnerFault;
use tree_spec::{Path, Refusal};

impl System {
    /// The lot of a slot with so many groups more, the least free ones.
    fn with_groups(&self, slot: u8, groups: u32) -> Result<Lot, Refusal>
        requires { slot < self.now.names.slots }
        ensures lot { IfOk result (λ lot. PlansGrow (tables_of self.now) slot groups lot) }
        ensures refused { IfErr result (λ why. RefusesGroups (tables_of self.now) (length (groups_of (tables_of self.now) slot)) groups why) }
        ensures lots { AreLots self.now.owners }
    {
        let base = self.base();
        let mut owners = self.owners.copy();
        match owners.reserve(slot, groups) {
            Ok(()) => Ok(owners.lot_of(slot, base)),
            Err(OwnerFault::CubeFull) => Err(Refusal::CubeFull),
            Err(OwnerFault::NoGroups) => Err(Refusal::NoGroups),
        }
    }

    /// The lot that a new cube of this path would get: the least free slot, and the least free groups in ascending order. The first that
    /// applies of Exists, a cube has the path; NoSlot, no slot is free; CubeFull, a cube has at most 64 groups; NoGroups, fewer are free.
    pub fn plan_create(&self, path: &Path, groups: u32) -> Result<Lot, Refusal>
        requires short { length (text_of path.now) ≤ 199 }
        requires some { 1 ≤ groups }
        ensures lot { IfOk result (λ lot. PlansCreate (tables_of self.now) path.now groups lot) }
        ensures refused { IfErr result (λ why. RefusesCreate (tables_of self.now) path.now groups why) }
    {
        if self.names.find(path).is_some() {
            return Err(Refusal::Exists);
        }
        match self.names.free_slot() {
            None => Err(Refusal::NoSlot),
            Some(slot) => self.with_groups(slot, groups),
        }
    }

    /// The lot that the cube of a slot would get with so many groups more: it begins with the cube's own groups. CubeFull where these
    /// would be more than 64, else NoGroups where fewer are free.
    pub fn plan_grow(&self, slot: u8, groups: u32) -> Result<Lot, Refusal>
        requires slot { slot < self.now.names.slots }
        requires live { IsSome (row_at self.now.names slot) }
        requires some { 1 ≤ groups }
        ensures lot { IfOk result (λ lot. PlansGrow (tables_of self.now) slot groups lot) }
        ensures refused { IfErr result (λ why. RefusesGroups (tables_of self.now) (length (groups_of (tables_of self.now) slot)) groups why) }
    {
        self.with_groups(slot, groups)
    }
}
