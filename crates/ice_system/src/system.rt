//! The tables of an open volume.
ghost use Rattle.std.specs.Prelude.{◌≡◌, ◌<◌, ◌≤◌, ◌+◌, ◌*◌};
ghost use Rattle.ice_names.specs.Names.{IsNameTable};
ghost use Rattle.ice_tables.specs.Lots.{lot_of, total};
ghost use Rattle.ice_system.specs.Systems.{tables_of};

use ice_base::Lot;
use ice_names::Names;
use ice_owner::Owners;
use ice_txn::WriteSet;
use std::marker::Model;

/// The blocks of both tables, and so as many as a change may put.
pub(crate) const TABLE_BLOCKS: u32 = 8;

/// The tables of an open volume: the rows of its cubes and the groups of its slots. A change of them writes the blocks that differ by
/// way of their journal, so that a crash leaves the tables before it or those after it. The write set of all changes is made once.
#[derive(Drop)]
pub struct System {
    pub(crate) names: Names,
    pub(crate) owners: Owners,
    pub(crate) set: WriteSet,
    pub(crate) failed: bool,
}

impl Model for System {
    ghost use Rattle.std.specs.Prelude.{◌≡◌};
    ghost use Rattle.ice_system.specs.Systems.{SystemView, AreTables};

    ghost Value = { SystemView };

    ghost view = { λ s. record { names = s.names; owners = s.owners; failed = s.failed } };

    ghost invariant = { λ s. AreTables s.names s.owners × (s.set.most ≡ 8) };
}

impl System {
    /// How many slots the image has, 1 to 16.
    pub fn slots(&self) -> u8
        ensures value { result ≡ self.now.names.slots }
        ensures table { IsNameTable self.now.names }
    {
        self.names.slots()
    }

    /// How many blocks the image has.
    pub fn total(&self) -> u32
        ensures { result ≡ total (tables_of self.now) }
    {
        ice_layout::total(self.names.slots(), self.owners.groups())
    }

    /// The rows of the cubes.
    pub fn names(&self) -> &Names
        ensures { result.now ≡ self.now.names }
    {
        &self.names
    }

    /// The first block of group 0 of the image.
    pub(crate) fn base(&self) -> u32
        ensures base { result ≡ 32 + 256 * self.now.names.slots }
        ensures some { 1 ≤ self.now.names.slots }
        ensures few { self.now.names.slots ≤ 16 }
    {
        32 + 256 * u32::from(self.names.slots())
    }

    /// The lot of a slot: its groups in the order of their ordinals, none where it is free.
    pub fn lot(&self, slot: u8) -> Lot
        requires { slot < self.now.names.slots }
        ensures { result ≡ lot_of (tables_of self.now) slot }
    {
        self.owners.lot_of(slot, self.base())
    }
}
