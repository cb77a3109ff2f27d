//! What a session has of each slot.
ghost use Rattle.std.specs.Prelude.{◌≡◌};
ghost use Rattle.ice_volume.specs.Cells.{cell_state};

use ice_cube::Cube;
use tree_spec::StateWord;

/// What a session has of a slot.
#[derive(Drop)]
pub enum Cell {
    /// No cube: the slot is free, or its cube isn't mounted.
    Closed,
    /// A cube that a failed unmount gave up, and that stays stopped until a mount.
    Stopped,
    /// A cube that is mounted, or was until a fault or damage stopped it.
    Open(Cube),
}

impl Cell {
    /// The state of the slot's cube, of which the tables know whether it is marked offline.
    pub(crate) fn state(&self, offline: bool) -> StateWord
        ensures { result ≡ cell_state self.now offline }
    {
        match self {
            Cell::Closed if offline => StateWord::Offline,
            Cell::Closed => StateWord::Unmounted,
            Cell::Stopped => StateWord::Stopped,
            Cell::Open(cube) if cube.is_stopped() => StateWord::Stopped,
            Cell::Open(_) => StateWord::Mounted,
        }
    }
}
