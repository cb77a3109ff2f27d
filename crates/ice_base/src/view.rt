//! A lot's blocks as something shows them, and as something takes changes of them.
ghost use Rattle.std.specs.Prelude.{◌≡◌, Bool, true, false, List, [], ℕ, OnOk, IsErrOf};
ghost use Rattle.ice_base.specs.Disk.{Caused};
ghost use Rattle.ice_base.specs.Looks.{LookedBy};
ghost use Rattle.ice_base.specs.Lots.{LotView, is_address, is_sited};
ghost use Rattle.ice_base.specs.Still.{Still};
ghost use Rattle.ice_base.specs.declared.fault.BlockFault.TheVariants.{Disk as FaultDisk, Range};

use crate::{Block, BlockFault, Disk, Lot};

/// Shows the blocks of a lot: those of its homes on the disk, or others that stand in their place.
pub trait View<D: Disk> {
    /// What the lot's addresses hold, with no block at any other address.
    ghost map: { Self → D → LotView → ℕ → List ℕ };

    /// What it shows is what the lot holds.
    ghost shows: { LotView → Self → D → Type 0 };

    /// Which addresses can be put without more room.
    ghost held: { Self → ℕ → Bool };

    /// How many further addresses can be put.
    ghost room: { Self → ℕ };

    /// For a lot, what stays between a view and disk at one moment and at a later one.
    ghost steady: { LotView → Self → D → Self → D → Type 0 };

    /// Reads the block of an address. It leaves the disk as it was. After an `Err` any bytes may stand in `into`.
    fn get(&mut self, disk: &mut D, lot: &Lot, at: u32, into: &mut Block) -> Result<(), BlockFault>
        requires { is_sited lot.now (D.state disk.old).size ≡ true }
        ensures content { shows lot.now self.old disk.old
            → OnOk result (into.new ≡ map self.old disk.old lot.now at) }
        ensures looked { LookedBy D.state map shows held room steady lot.now self.old disk.old self.new disk.new }
        ensures still { Still D.state D.left disk.old disk.new }
        ensures good { OnOk result (is_address lot.now at ≡ true) }
        ensures range { IsErrOf result Range → is_address lot.now at ≡ false }
        ensures placed { IsErrOf result FaultDisk → is_address lot.now at ≡ true }
        ensures failed { Caused D.state FaultDisk result disk.old disk.new };

    /// No block stands at an address that isn't the lot's.
    ghost outside: { (v : Self) (d : D) (lot : LotView) (a : ℕ) → is_address lot a ≡ false → map v d lot a ≡ [] };

    /// What is steady from one moment to the next, and from there on, is steady over both.
    ghost steady_trans: { (lot : LotView) (u : Self) (d : D) (v : Self) (e : D) (w : Self) (f : D)
        → steady lot u d v e → steady lot v e w f → steady lot u d w f };

    /// What doesn't change is steady.
    ghost steady_refl: { (lot : LotView) (v : Self) (d : D) → steady lot v d v d };
}
