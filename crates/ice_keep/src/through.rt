//! A keep that writes home at once.
ghost use Rattle.std.specs.Prelude.{◌≡◌, ◌^◌, ◌-◌, true};
ghost use Rattle.ice_base.specs.Lots.{inside, inside_out, homes};
ghost use Rattle.ice_keep.specs.Through.{Through, through_refl, through_then};

use ice_base::{Block, BlockFault, Disk, Keep, Lot, View};

/// Puts write home at once. It holds every address.
#[derive(Clone, Copy, Debug, Drop)]
pub struct ThroughKeep {}

impl ThroughKeep {
    /// The one keep of this kind.
    pub fn new() -> ThroughKeep {
        ThroughKeep {}
    }
}

impl<D: Disk> View<D> for ThroughKeep {
    ghost map = { λ v d lot. inside lot (homes lot (D.state d).now) };

    ghost shows = { λ lot v d. (D.state d).tells ≡ true };

    ghost held = { λ v a. true };

    ghost room = { λ v. 2 ^ 32 - 1 };

    ghost steady = { λ lot v d w e. Through D.state D.left lot d e };

    #[tactic(auto, using(ice_base::proofs::LotLaws::inside_laws, crate::proofs::ThroughLaws::through_laws))]
    fn get(
        &mut self,
        disk: &mut D,
        lot: &Lot,
        at: u32,
        into: &mut Block,
    ) -> Result<(), BlockFault> {
        match lot.place(at) {
            None => Err(BlockFault::Range),
            Some(home) => match disk.read(home, into) {
                Ok(()) => Ok(()),
                Err(_) => Err(BlockFault::Disk),
            },
        }
    }

    ghost outside = { λ v d lot. inside_out lot (homes lot (D.state d).now) };

    ghost steady_trans = { λ lot u d v e w f. through_then D.state D.left lot d e f };

    ghost steady_refl = { λ lot v d. through_refl D.state D.left lot d };
}

impl<D: Disk> Keep<D> for ThroughKeep {
    #[tactic(auto, using(ice_base::proofs::LotLaws::inside_laws, crate::proofs::ThroughLaws::through_laws))]
    fn put(&mut self, disk: &mut D, lot: &Lot, at: u32, from: &Block) -> Result<(), BlockFault> {
        match lot.place(at) {
            None => Err(BlockFault::Range),
            Some(home) => match disk.write(home, from) {
                Ok(()) => Ok(()),
                Err(_) => Err(BlockFault::Disk),
            },
        }
    }

    fn spare(&self) -> u32 {
        0xFFFF_FFFF
    }
}
