//! A finite map from addresses to blocks that takes no memory once it is made.
ghost use Rattle.std.specs.Prelude.{◌≡◌, ◌<◌, ◌+◌, ◌-◌, ◌==◌, cond, true, false, [], List, ℕ, length, MatchOption, IfOk};
ghost use Rattle.ice_txn.specs.Sets.{address, contents, holds, over, Differ};

use ice_base::Block;
use std::alloc::{AllocError, Global};
use std::marker::Model;
use std::mem::swap;

/// As many blocks as a cube's journal has bodies for.
const BODIES: u32 = 240;

/// A block with its address.
#[derive(Clone, Copy, Drop)]
pub struct Entry {
    pub at: u32,
    pub block: Block,
}

/// Blocks by their addresses, each address once, in the order in which they first were put.
#[derive(Drop)]
pub struct WriteSet {
    entries: Vec<Entry>,
    most: u32,
}

impl Model for WriteSet {
    ghost use Rattle.std.specs.Prelude.{vec_capacity};
    ghost use Rattle.ice_txn.specs.Sets.{SetView, IsSet};

    ghost Value = { SetView };

    ghost view = { λ s. record { entries = s.entries.items; most = s.most } };

    ghost invariant = { λ s. IsSet (record { entries = s.entries.items; most = s.most }) (vec_capacity s.entries) };
}

impl WriteSet {
    /// Empty, with space for 240 blocks.
    pub fn new(alloc: Global) -> Result<WriteSet, AllocError>
        ensures entries { IfOk result (λ s. s.entries ≡ []) }
        ensures most { IfOk result (λ s. s.most ≡ 240) }
    {
        WriteSet::with_space(alloc, BODIES)
    }

    /// Empty, with space for so many blocks. No other call takes memory.
    pub fn with_space(alloc: Global, most: u32) -> Result<WriteSet, AllocError>
        ensures entries { IfOk result (λ s. s.entries ≡ []) }
        ensures most { IfOk result (λ s. s.most ≡ most) }
    {
        let entries = Vec::with_capacity(alloc, most as usize)?;
        Ok(WriteSet { entries, most })
    }

    /// How many blocks it has. No two of them have one address.
    pub fn len(&self) -> u32
        ensures len { result ≡ length self.now.entries }
        ensures differ { Differ self.now.entries }
    {
        self.entries.len() as u32
    }

    /// How many further addresses it has space for.
    pub fn spare(&self) -> u32
        ensures { result ≡ self.now.most - length self.now.entries }
    {
        self.most - self.entries.len() as u32
    }

    /// The address of its i-th block.
    #[tactic(auto, unfolding(crate::specs::Sets::address))]
    pub fn address(&self, i: u32) -> u32
        requires { i < length self.now.entries }
        ensures { result ≡ address self.now.entries i }
    {
        self.entries[i as usize].at
    }

    /// Its i-th block.
    #[tactic(auto, unfolding(crate::specs::Sets::contents))]
    pub fn block(&self, i: u32) -> &Block
        requires { i < length self.now.entries }
        ensures { result.now ≡ contents self.now.entries i }
    {
        &self.entries[i as usize].block
    }

    /// Which entry has the address.
    #[tactic(auto, unfolding(crate::specs::Sets::address), using(crate::proofs::SetLaws::find_laws))]
    fn index_of(&self, at: u32) -> Option<usize>
        ensures { MatchOption result (holds self.now.entries at ≡ false) (λ j. (j < length self.now.entries)
            × (address self.now.entries j ≡ at) × (holds self.now.entries at ≡ true)) }
    {
        for j in 0..self.entries.len() {
            if self.entries[j].at == at {
                return Some(j);
            }
        }
        None
    }

    /// The block of an address, where it has one.
    pub fn find(&self, at: u32) -> Option<&Block>
        ensures { MatchOption result (holds self.now.entries at ≡ false) (λ b. (holds self.now.entries at ≡ true)
            × ((m : ℕ → List ℕ) → b.now ≡ over self.now.entries m at)) }
    {
        match self.index_of(at) {
            Some(j) => Some(&self.entries[j].block),
            None => None,
        }
    }

    /// Puts the block of an address, in place of the one that it has.
    pub fn put(&mut self, at: u32, from: &Block)
        requires space { holds self.old.entries at ≡ false → length self.old.entries < self.old.most }
        ensures map { (m : ℕ → List ℕ) (a : ℕ)
            → over self.new.entries m a ≡ cond (at == a) from.now (over self.old.entries m a) }
        ensures holds { (a : ℕ) → holds self.new.entries a ≡ cond (at == a) true (holds self.old.entries a) }
        ensures count { length self.new.entries ≡ length self.old.entries + cond (holds self.old.entries at) 0 1 }
        ensures most { self.new.most ≡ self.old.most }
    {
        match self.index_of(at) {
            Some(j) => {
                self.entries[j].block = *from;
            }
            None => {
                self.entries.push_reserved(Entry { at, block: *from });
            }
        }
    }

    /// Takes the block of an address out, where it has one. The others stay in their order.
    pub fn drop_address(&mut self, at: u32)
        ensures map { (m : ℕ → List ℕ) (a : ℕ)
            → over self.new.entries m a ≡ cond (at == a) (m a) (over self.old.entries m a) }
        ensures holds { (a : ℕ) → holds self.new.entries a ≡ cond (at == a) false (holds self.old.entries a) }
        ensures count { length self.new.entries + cond (holds self.old.entries at) 1 0 ≡ length self.old.entries }
        ensures most { self.new.most ≡ self.old.most }
    {
        if let Some(j) = self.index_of(at) {
            self.entries.remove(j);
        }
    }

    /// Exchanges what two sets have.
    pub fn swap_with(&mut self, other: &mut WriteSet)
        ensures here { self.new ≡ other.old }
        ensures there { other.new ≡ self.old }
    {
        swap(self, other);
    }

    /// Takes all blocks out.
    pub fn clear(&mut self)
        ensures entries { self.new.entries ≡ [] }
        ensures most { self.new.most ≡ self.old.most }
    {
        self.entries.clear();
    }
}
