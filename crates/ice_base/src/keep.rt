//! A view that also takes changes.
ghost use Rattle.std.specs.Prelude.{is_ok, ◌≡◌, ◌≤◌, ℕ, true, false, [], ◌∷◌, OnOk, IsErrOf};
ghost use Rattle.ice_base.specs.Disk.{Caused};
ghost use Rattle.ice_base.specs.Lots.{is_address, is_sited};
ghost use Rattle.ice_base.specs.Still.{PutsHome};
ghost use Rattle.ice_base.specs.Views.{Looked, Spent, Puts};
ghost use Rattle.ice_base.specs.declared.fault.BlockFault.TheVariants.{Disk as FaultDisk, Range};

use crate::{Block, BlockFault, Disk, Lot, View};

/// A view of a lot that takes changes of its blocks. An address that it holds can be put again without more room.
pub trait Keep<D: Disk>: View<D> {
    /// Puts a block at an address. Of the disk it changes at most the home of that address. After an `Err(Disk)` any bytes may stand there.
    fn put(&mut self, disk: &mut D, lot: &Lot, at: u32, from: &Block) -> Result<(), BlockFault>
        requires sited { is_sited lot.now (D.state disk.old).size ≡ true }
        requires room { Self.held self.old at ≡ false → 1 ≤ Self.room self.old }
        ensures content { Self.shows lot.now self.old disk.old
            → OnOk result (Self.map self.new disk.new lot.now at ≡ from.now) }
        ensures puts { Puts Self.View lot.now (is_ok result) (at ∷ []) self.old disk.old self.new disk.new }
        ensures spent { Spent D.Disk Self.View lot.now 1 self.old disk.old self.new disk.new }
        ensures home { PutsHome D.state D.left lot.now at disk.old disk.new }
        ensures holds { OnOk result (Self.held self.new at ≡ true) }
        ensures free { Self.held self.old at ≡ true → Self.room self.old ≤ Self.room self.new }
        ensures good { OnOk result (is_address lot.now at ≡ true) }
        ensures range { IsErrOf result Range → is_address lot.now at ≡ false }
        ensures untouched { IsErrOf result Range
            → Looked D.Disk Self.View lot.now self.old disk.old self.new disk.new }
        ensures placed { IsErrOf result FaultDisk → is_address lot.now at ≡ true }
        ensures failed { Caused D.state FaultDisk result disk.old disk.new };

    /// How many further addresses it can hold.
    fn spare(&self) -> u32
        ensures { result ≡ Self.room self.now };
}
