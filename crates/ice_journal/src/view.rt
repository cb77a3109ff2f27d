//! The effective blocks of a lot as a view.
ghost use Rattle.std.specs.Prelude.{◌≡◌, true, false};
ghost use Rattle.ice_base.specs.Lots.{place, inside_out};
ghost use Rattle.ice_tables.specs.Journals.{lot_places, replayed};
ghost use Rattle.ice_journal.specs.Shown.{shown, SameAll, same_refl, same_then};

use crate::Effective;
use crate::effective::look;
use ice_base::{Block, BlockFault, Disk, Lot, View};

// What is read are blocks of the disk itself, so it shows what the lot holds where the disk tells.
impl<D: Disk> View<D> for Effective {
    ghost map = { λ v d lot. shown v lot (D.state d).now };

    ghost shows = { λ lot v d. (D.state d).tells ≡ true };

    ghost held = { λ v a. false };

    ghost room = { λ v. 0 };

    ghost steady = { λ lot v d w e. SameAll D.state D.left v d w e };

    fn get(
        &mut self,
        disk: &mut D,
        lot: &Lot,
        at: u32,
        into: &mut Block,
    ) -> Result<(), BlockFault> {
        match lot.place(at) {
            None => Err(BlockFault::Range),
            Some(_) => match look(disk, self.source(lot, at), into) {
                Ok(()) => Ok(()),
                Err(_) => Err(BlockFault::Disk),
            },
        }
    }

    ghost outside = { λ v d lot. inside_out lot (replayed (place lot) v (lot_places lot).body (D.state d).now) };

    ghost steady_trans = { λ lot u d v e w f. same_then D.state D.left u d v e w f };

    ghost steady_refl = { λ lot v d. same_refl D.state D.left v d };
}
