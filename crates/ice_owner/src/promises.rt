//! The laws of owner tables, each the contract of a function that does nothing.
ghost use Rattle.std.specs.Prelude.{◌≡◌, ◌≢◌, ◌≤◌, ◌<◌, ◌+◌, ◌*◌, ℕ, List, [], Some, None, IsSome, length, slice_index};
ghost use Rattle.ice_base.specs.Lots.{IsLot};
ghost use Rattle.ice_tables.specs.Tables.{Tables, AreOwners, owner_byte};
ghost use Rattle.ice_tables.specs.Lots.{groups_of};
ghost use Rattle.ice_owner.specs.Owners.{OwnersView, AreLots, HasOwners, Changes, groups_at, holder, ordinal, free_groups};

/// Tables whose groups belong as these do have the same groups for each slot, and are accepted where the slots that have groups are
/// those that are not free, and no group past the last has an owner.
#[tactic(auto, using(crate::proofs::Laws::groups_same, crate::proofs::Laws::owners_accepted))]
pub fn owners_are_tables()
    ensures groups { (v : OwnersView) (t : Tables) → AreLots v → HasOwners v t → (s : ℕ)
        → groups_of t s ≡ groups_at v s }
    ensures accepted { (v : OwnersView) (t : Tables) (m : ℕ → List ℕ) → AreLots v → HasOwners v t
        → ((s : ℕ) → IsSome (t.row s) → groups_at v s ≢ [])
        → ((s : ℕ) → groups_at v s ≢ [] → IsSome (t.row s))
        → ((g : ℕ) → v.groups ≤ g → g < 1024 → owner_byte m g ≡ 0) → AreOwners t m }
{}

/// Where such tables are accepted, the slots that have groups are those that are not free.
#[tactic(auto, using(crate::proofs::Laws::rows_have_groups, crate::proofs::Laws::groups_have_rows))]
pub fn rows_and_groups()
    ensures rows { (v : OwnersView) (t : Tables) (m : ℕ → List ℕ) → AreLots v → HasOwners v t → AreOwners t m
        → (s : ℕ) → IsSome (t.row s) → groups_at v s ≢ [] }
    ensures groups { (v : OwnersView) (t : Tables) (m : ℕ → List ℕ) → AreLots v → HasOwners v t → AreOwners t m
        → (s : ℕ) → groups_at v s ≢ [] → IsSome (t.row s) }
{}

/// Groups that stand in the same lists belong alike. Where one slot changes, the groups of another one stay with it, and those that the
/// slot gets are its own, in their order.
#[tactic(auto, using(crate::proofs::Laws::same_holder, crate::proofs::Laws::same_ordinal, crate::proofs::Laws::given_group))]
pub fn groups_belong()
    ensures holder { (v w : OwnersView) → AreLots w → ((s : ℕ) → groups_at w s ≡ groups_at v s) → (g : ℕ)
        → holder w g ≡ holder v g }
    ensures ordinal { (v w : OwnersView) → AreLots w → ((s : ℕ) → groups_at w s ≡ groups_at v s) → (g : ℕ)
        → ordinal w g ≡ ordinal v g }
    ensures kept { (v w : OwnersView) (slot : ℕ) (groups : List ℕ) → AreLots w → Changes v w slot groups
        → (g s : ℕ) → s ≢ slot → holder v g ≡ Some s → (holder w g ≡ Some s) × (ordinal w g ≡ ordinal v g) }
    ensures given { (v w : OwnersView) (slot : ℕ) (groups : List ℕ) → AreLots w → Changes v w slot groups
        → (o : ℕ) → o < length groups
        → (holder w (slice_index groups o) ≡ Some slot) × (ordinal w (slice_index groups o) ≡ o) }
{}

/// The free groups are groups of the image that belong to no slot, and the groups of a slot make a proper lot.
#[tactic(auto, using(crate::proofs::Laws::free_group, crate::proofs::Laws::lot_is_proper))]
pub fn groups_of_slots()
    ensures free { (v : OwnersView) (o : ℕ) → o < length (free_groups v)
        → (slice_index (free_groups v) o < v.groups) × (holder v (slice_index (free_groups v) o) ≡ None) }
    ensures proper { (v : OwnersView) (slot base slots : ℕ) → AreLots v → slot < slots → slots ≤ 16
        → base ≡ 32 + 256 * slots → IsLot (record { slot = slot; base = base; groups = groups_at v slot }) }
{}
