//! A disk in memory for tests. It tells nothing of its content, so that no proof of a test knows what it reads.
ghost use Rattle.ice_base.specs.Disk.{untold};
ghost use Rattle.std.specs.Prelude.{◌≡◌, false, [], length};
ghost use Rattle.std.proofs.Common.{arith};

use ice_base::{Block, Disk, DiskFault};
use std::alloc::{AllocError, Global};

/// 544 blocks: an image of one slot and one group.
#[derive(Drop)]
pub struct Ram {
    pub blocks: Vec<Block>,
    ghost full: { length blocks.items ≡ 544 },
}

impl Ram {
    pub fn new(alloc: Global) -> Result<Ram, AllocError> {
        let blocks = vec![in alloc; [0; 1024]; 544]?;
        Ok(Ram { blocks })
    }
}

impl Disk for Ram {
    ghost state = { λ d. untold 544 0 0 0 };

    ghost left = { λ d t image out. ⊥ };

    fn blocks(&self) -> u32 {
        544
    }

    fn read(&mut self, at: u32, into: &mut Block) -> Result<(), DiskFault> {
        let block = self.blocks[at as usize];
        *into = block;
        Ok(())
    }

    fn write(&mut self, at: u32, from: &Block) -> Result<(), DiskFault> {
        self.blocks[at as usize] = *from;
        Ok(())
    }

    fn barrier(&mut self) -> Result<(), DiskFault> {
        Ok(())
    }

    ghost agrees_now = { λ d image out h. absurd h };

    ghost counts_now = { λ d t h. absurd (Prim.cc) };

    ghost small = { λ d. Prim.omega arith };

    ghost whole = { λ d h. absurd (Prim.cc) };
}
