//! A volume: its tables, and what a session has of each cube.
ghost use Rattle.std.specs.Prelude.{◌≡◌, ◌<◌, IfSome, MatchOption, Some};
ghost use Rattle.ice_names.specs.Names.{row_at, path_at, NoneHas};
ghost use Rattle.ice_volume.specs.Cells.{cell_at, cell_state};
ghost use Rattle.ice_volume.specs.Rows.{is_marked};

use crate::cell::Cell;
use ice_names::Mark;
use ice_system::System;
use std::alloc::Global;
use std::marker::Model;
use tree_spec::{Path, StateWord};

/// The cubes of an image: its tables, and for each slot what the session has of it.
#[derive(Drop)]
pub struct Volume {
    pub(crate) alloc: Global,
    pub(crate) system: System,
    pub(crate) cells: [Cell; 16],
}

impl Model for Volume {
    ghost use Rattle.ice_volume.specs.Volumes.{AreSessions, VolumeView};

    ghost Value = { VolumeView };

    ghost view = { λ v. record { system = v.system; cells = v.cells } };

    ghost invariant = { λ v. AreSessions (record { system = v.system; cells = v.cells }) };
}

impl Volume {
    /// The slot of the cube of a path.
    pub(crate) fn find(&self, path: &Path) -> Option<u8>
        ensures slot { IfSome result (λ s. s < self.now.system.names.slots) }
        ensures found { MatchOption result (NoneHas self.now.system.names path.now) (λ s. path_at self.now.system.names s ≡ Some path.now) }
    {
        self.system.names().find(path)
    }

    /// Whether the cube of a slot has the mark of one that is offline.
    pub(crate) fn is_offline(&self, slot: u8) -> bool
        requires { slot < self.now.system.names.slots }
        ensures { result ≡ is_marked (row_at self.now.system.names slot) }
    {
        self.system.names().mark(slot) == Mark::Offline
    }

    /// What the session has of a slot.
    fn cell(&self, slot: u8) -> &Cell
        requires { slot < self.now.system.names.slots }
        ensures { result.now ≡ cell_at self.now.cells slot }
    {
        // This call tells the prover that there are at most 16 slots.
        let _ = self.system.slots();
        &self.cells[slot as usize]
    }

    /// The state of the cube of a slot.
    pub(crate) fn state(&self, slot: u8) -> StateWord
        requires { slot < self.now.system.names.slots }
        ensures { result ≡ cell_state (cell_at self.now.cells slot) (is_marked (row_at self.now.system.names slot)) }
    {
        let offline = self.is_offline(slot);
        self.cell(slot).state(offline)
    }
}
