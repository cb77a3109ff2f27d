//! A keep of a list of blocks.
ghost use Rattle.std.specs.Prelude.{◌≡◌, ◌≤◌, ◌<◌, ◌+◌, ◌-◌, ◌==◌, cond, true, false, [], List, ℕ, length, MatchOption, IfOk};
ghost use Rattle.ice_base.specs.Lots.{inside, inside_out, homes};
ghost use Rattle.ice_base.specs.Still.{Still, still_refl, still_then};
ghost use Rattle.ice_txn.specs.Sets.{holds, over};

use ice_base::{Block, BlockFault, Disk, Keep, Lot, View};
use ice_txn::WriteSet;
use std::alloc::{AllocError, Global};
use std::marker::Model;

/// Holds blocks in memory, with their addresses, and never writes. Its held addresses and its room change, so that what is said
/// of every keep must hold here, where `ThroughKeep` alone would let much pass.
#[derive(Drop)]
pub struct ListKeep {
    set: WriteSet,
}

impl Model for ListKeep {
    ghost use Rattle.ice_txn.specs.Sets.{SetView};

    ghost Value = { SetView };

    ghost view = { λ k. k.set };
}

impl ListKeep {
    /// It holds nothing yet, and has room for so many blocks. No later call takes memory.
    pub fn new(alloc: Global, room: u32) -> Result<ListKeep, AllocError>
        ensures entries { IfOk result (λ k. k.entries ≡ []) }
        ensures most { IfOk result (λ k. k.most ≡ room) }
    {
        let set = WriteSet::with_space(alloc, room)?;
        Ok(ListKeep { set })
    }
}

#[tactic(auto, using(ice_base::proofs::LotLaws::inside_laws, ice_txn::proofs::SetLaws::set_laws))]
impl<D: Disk> View<D> for ListKeep {
    ghost map = { λ v d lot. inside lot (over v.entries (homes lot (D.state d).now)) };

    ghost shows = { λ lot v d. (D.state d).tells ≡ true };

    ghost held = { λ v. holds v.entries };

    ghost room = { λ v. v.most - length v.entries };

    ghost steady = { λ lot v d w e. Still D.state D.left d e };

    fn get(
        &mut self,
        disk: &mut D,
        lot: &Lot,
        at: u32,
        into: &mut Block,
    ) -> Result<(), BlockFault> {
        match lot.place(at) {
            None => Err(BlockFault::Range),
            Some(home) => {
                if let Some(block) = self.set.find(at) {
                    *into = *block;
                    return Ok(());
                }
                match disk.read(home, into) {
                    Ok(()) => Ok(()),
                    Err(_) => Err(BlockFault::Disk),
                }
            }
        }
    }

    ghost outside = { λ v d lot. inside_out lot (over v.entries (homes lot (D.state d).now)) };

    ghost steady_trans = { λ lot u d v e w f. still_then D.state D.left d e f };

    ghost steady_refl = { λ lot v d. still_refl D.state D.left d };
}

impl<D: Disk> Keep<D> for ListKeep {
    fn put(&mut self, disk: &mut D, lot: &Lot, at: u32, from: &Block) -> Result<(), BlockFault> {
        // This call tells the prover that the disk has fewer than 2^32 blocks.
        let _ = disk.blocks();
        match lot.place(at) {
            None => Err(BlockFault::Range),
            Some(_) => {
                self.set.put(at, from);
                Ok(())
            }
        }
    }

    fn spare(&self) -> u32 {
        self.set.spare()
    }
}
