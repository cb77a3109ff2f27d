//! Further groups of a mounted cube.
ghost use Rattle.std.specs.Prelude.{◌≡◌};
ghost use Rattle.tree_spec.specs.Costs.{Form};
ghost use Rattle.tree_spec.specs.Records.{History, Mode};
ghost use Rattle.ice_cube.specs.Cubes.{Holds};
ghost use Rattle.ice_cube.specs.Wider.{HasNewGroups, IsWider};

use crate::cube::Cube;
use ice_base::{Disk, Lot};

impl Cube {
    /// Takes the groups of a wider lot into use: the cube's own groups, and then others, which are initialised and settled.
    pub fn widen<D: Disk>(&mut self, disk: &D, lot: &Lot)
        requires wider { IsWider self.old.lot lot.now }
        ensures widened { self.new ≡ record self.old { lot = lot.now } }
        // Where the further groups are fresh on the disk and settled, it holds what it held.
        ensures holds { (f : Form) (mode : Mode) (h : History) → HasNewGroups self.old.lot lot.now (D.state disk.now)
            → Holds f mode h self.old (D.state disk.now) → Holds f mode h self.new (D.state disk.now) }
    {
        self.lot = lot.copy();
    }
}
