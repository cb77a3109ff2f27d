//! The blocks that one cube owns.
ghost use Rattle.std.specs.Prelude.{◌≡◌, ◌≢◌, ◌≤◌, ◌<◌, ◌+◌, ◌*◌, [], ◌∷◌, ◌++◌, true, List, ℕ, IfSome, length, SomeIff, slice_index};
ghost use Rattle.ice_base.specs.Lots.{IsLot, is_address, place, area, gate_place, header_place, body_place, is_sited, extent, LotView};

use std::marker::Model;

/// The address of the sub-super block.
pub const SUB: u32 = 0xFFFF_FFFF;

/// Where the sub-super block has the number of accepted commands, in eight bytes.
pub const DONE_AT: usize = 16;

/// Where it has the number of used data blocks and indirect blocks, in four bytes.
pub const BLOCKS_AT: usize = 24;

/// Where it has the number of used inodes, in four bytes.
pub const NODES_AT: usize = 28;

/// The blocks that one cube owns: the 256 blocks of its slot's area, and those of up to 64 groups of 256 blocks.
/// A cube address is `256 ordinal + place` for place `place` of the group with that ordinal, or `0xFFFFFFFF` for the sub-super block.
#[derive(Drop)]
pub struct Lot {
    slot: u8,
    groups: [u16; 64],
    n: u8,
    base: u32,
}

impl Model for Lot {
    ghost use Rattle.std.specs.Prelude.{take, ◌≤◌};
    ghost use Rattle.ice_base.specs.Lots.{IsLot, LotView};

    ghost Value = { LotView };

    ghost view = { λ l. record { slot = l.slot; base = l.base; groups = take l.n l.groups } };

    ghost invariant = { λ l. IsLot (record { slot = l.slot; base = l.base; groups = take l.n l.groups }) × (l.n ≤ 64) };
}

impl Lot {
    /// The lot of a slot without a group, in an image whose group 0 begins at block `base`.
    pub fn new(slot: u8, base: u32) -> Lot
        requires slot { slot < 16 }
        requires base { (s : ℕ) × (slot < s) × (s ≤ 16) × (base ≡ 32 + 256 * s) }
        ensures { result ≡ record { slot = slot; base = base; groups = [] } }
    {
        Lot {
            slot,
            groups: [0; 64],
            n: 0,
            base,
        }
    }

    /// Gives the group the next ordinal.
    pub fn push(&mut self, group: u16)
        requires room { length self.old.groups < 64 }
        requires small { group < 1024 }
        requires fresh { (i : ℕ) → i < length self.old.groups → slice_index self.old.groups i ≢ group }
        ensures { self.new ≡ record { slot = self.old.slot; base = self.old.base; groups = self.old.groups ++ group ∷ [] } }
    {
        self.groups[self.n as usize] = group;
        self.n += 1;
    }

    #[tactic(auto, unfolding(crate::specs::Lots::is_address, crate::specs::Lots::place))]
    fn find_place(&self, at: u32) -> Option<u32>
        ensures found { SomeIff result (is_address self.now at ≡ true) (place self.now at) }
        ensures lot { IsLot self.now }
    {
        if at == SUB {
            return Some(32 + 256 * self.slot as u32);
        }
        let ordinal = at / 256;
        if ordinal >= self.n as u32 {
            return None;
        }
        Some(self.base + 256 * self.groups[ordinal as usize] as u32 + at % 256)
    }

    /// The block of an address, None where the address isn't one of the lot.
    #[tactic(auto, using(crate::proofs::LotLaws::place_laws))]
    pub fn place(&self, at: u32) -> Option<u32>
        ensures found { SomeIff result (is_address self.now at ≡ true) (place self.now at) }
        ensures below { (n : ℕ) → is_sited self.now n ≡ true → IfSome result (λ p. p < n) }
        ensures apart { IfSome result (λ p. (b : ℕ) → is_address self.now b ≡ true → place self.now b ≡ p
            → b ≡ at) }
        ensures extent { IfSome result (extent self.now) }
        ensures lot { IsLot self.now }
    {
        match self.find_place(at) {
            None => None,
            Some(block) => Some(block),
        }
    }

    /// The block of an address of the lot.
    pub fn home(&self, at: u32) -> u32
        requires { is_address self.now at ≡ true }
        ensures home { result ≡ place self.now at }
        ensures lot { IsLot self.now }
    {
        match self.find_place(at) {
            None => 0,
            Some(block) => block,
        }
    }

    /// The journal's gate block.
    pub fn gate(&self) -> u32
        ensures { result ≡ gate_place self.now }
    {
        33 + 256 * self.slot as u32
    }

    /// The journal's header block.
    pub fn header(&self) -> u32
        ensures { result ≡ header_place self.now }
    {
        34 + 256 * self.slot as u32
    }

    /// The journal's i-th body block.
    pub fn body(&self, i: u32) -> u32
        requires { i < 240 }
        ensures { result ≡ body_place self.now i }
    {
        35 + 256 * self.slot as u32 + i
    }

    /// The slot of the lot's area.
    pub fn slot(&self) -> u8
        ensures slot { result ≡ self.now.slot }
        ensures small { result < 16 }
    {
        self.slot
    }

    /// The number of groups.
    pub fn len(&self) -> u8
        ensures len { result ≡ length self.now.groups }
        ensures few { result ≤ 64 }
        ensures lot { IsLot self.now }
    {
        self.n
    }

    /// The same lot.
    pub fn copy(&self) -> Lot
        ensures { result ≡ self.now }
    {
        Lot {
            slot: self.slot,
            groups: self.groups,
            n: self.n,
            base: self.base,
        }
    }
}
