//! The laws of what a map of blocks recovers, each the contract of a function that does nothing.
ghost use Rattle.std.specs.Prelude.{◌≡◌, ◌≤◌, ◌<◌, ◌*◌, ◌%◌, ◌^◌, ℕ, Bool, true, List, length};
ghost use Rattle.ice_base.specs.Lots.{LotView, sub_address};
ghost use Rattle.ice_base.specs.Spare.{has};
ghost use Rattle.ice_map.specs.Maps.{times};
ghost use Rattle.ice_map.specs.Own.{mark, own};
ghost use Rattle.tree_spec.specs.Trees.{Tree, Dir, Nil};
ghost use Rattle.tree_spec.specs.Costs.{Form, form_one, form_of, blocks};
ghost use Rattle.ice_reads.specs.Fresh.{IsFreshLot};
ghost use Rattle.ice_reads.specs.Tables.{Map};
ghost use Rattle.ice_reads.specs.Reads.{Reads, used_blocks};
ghost use Rattle.ice_reads.specs.Recovers.{MapRecovers};

/// A map recovers one tree, with one count and one mode.
#[tactic(auto, using(crate::proofs::Recovering::recovers_one))]
pub fn one_tree()
    ensures { (f : Form) (mode other : ℕ) (lot : LotView) (m : Map) (t u : Tree) (j k : ℕ)
        → MapRecovers f mode lot m t j → MapRecovers f other lot m u k → (t ≡ u) × (j ≡ k) × (mode ≡ other) }
{}

/// The count that a map recovers has at most 63 bits.
#[tactic(auto, using(crate::proofs::Recovering::recovers_small))]
pub fn small_count()
    ensures { (f : Form) (mode : ℕ) (lot : LotView) (m : Map) (t : Tree) (k : ℕ) → MapRecovers f mode lot m t k → k < 2 ^ 63 }
{}

/// A map recovers what another one does where they hold the same in the sub-super block, in the bitmaps and the inodes,
/// and in the blocks that the tree uses.
pub fn same_blocks()
    ensures { (f : Form) (mode : ℕ) (lot : LotView) (m n : Map) (t : Tree) (k : ℕ) → n sub_address ≡ m sub_address
        → ((a : ℕ) → a < 256 * length lot.groups → a % 256 < 9 → n a ≡ m a)
        → ((a : ℕ) → 0 < times (used_blocks f (own f m) 0 t) a → n a ≡ m a)
        → MapRecovers f mode lot m t k → MapRecovers f mode lot n t k }
{}

/// A number stands in a list as often as a bit says where it stands there once at most, and just where the bit is set.
pub fn marks_as_sets()
    ensures sets { (xs : List ℕ) (a : ℕ) (b : Bool) → times xs a ≡ mark b
        → (times xs a ≤ 1) × (b ≡ true → has xs a ≡ true) × (has xs a ≡ true → b ≡ true) }
    ensures counts { (xs : List ℕ) (a : ℕ) (b : Bool) → times xs a ≤ 1
        → (b ≡ true → has xs a ≡ true) → (has xs a ≡ true → b ≡ true) → times xs a ≡ mark b }
{}

/// A fresh lot recovers the empty directory, with no accepted operation.
#[tactic(auto, using(crate::proofs::FreshLots::fresh_recovers))]
pub fn fresh_lot()
    ensures { (lot : LotView) (m : Map) → IsFreshLot lot m → MapRecovers form_one 0 lot m (Dir Nil) 0 }
{}

/// In the form of a version, a tree uses as many blocks of a lot of at most 64 groups as it costs.
#[tactic(auto, using(crate::proofs::UsedCosts::cost_is_used))]
pub fn cost_is_used()
    ensures { (f : Form) (lot : LotView) (m : Map) (i h : ℕ) (t : Tree) → f ≡ form_of f.version
        → length lot.groups ≤ 64 → Reads f lot (own f m) i h t → length (used_blocks f (own f m) i t) ≡ blocks f t }
{}
