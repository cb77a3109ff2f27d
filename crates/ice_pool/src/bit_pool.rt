//! The pool of the bitmaps.
use crate::change::{give, take};
use crate::find::free;
use ice_base::{Disk, Keep, Lot, OpFault, Pool};

/// The free blocks and inodes as the bitmaps of the groups say.
#[derive(Clone, Copy, Debug, Drop)]
pub struct BitPool {}

impl BitPool {
    /// The one pool of this kind.
    pub fn new() -> BitPool {
        BitPool {}
    }
}

#[tactic(auto, using(ice_base::proofs::UsedLaws::group_laws))]
impl<D: Disk, K: Keep<D>> Pool<D, K> for BitPool {
    fn take_block(&mut self, keep: &mut K, disk: &mut D, lot: &Lot) -> Result<u32, OpFault> {
        take(keep, disk, lot, false)
    }

    fn give_block(
        &mut self,
        keep: &mut K,
        disk: &mut D,
        lot: &Lot,
        at: u32,
    ) -> Result<(), OpFault> {
        give(keep, disk, lot, false, at)
    }

    fn take_inode(&mut self, keep: &mut K, disk: &mut D, lot: &Lot) -> Result<u32, OpFault> {
        take(keep, disk, lot, true)
    }

    fn give_inode(
        &mut self,
        keep: &mut K,
        disk: &mut D,
        lot: &Lot,
        inode: u32,
    ) -> Result<(), OpFault> {
        give(keep, disk, lot, true, inode)
    }

    fn free_blocks(&mut self, keep: &mut K, disk: &mut D, lot: &Lot) -> Result<u32, OpFault> {
        free(keep, disk, lot, false)
    }

    fn free_inodes(&mut self, keep: &mut K, disk: &mut D, lot: &Lot) -> Result<u32, OpFault> {
        free(keep, disk, lot, true)
    }
}
