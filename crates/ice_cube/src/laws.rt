//! The laws of mounted cubes, each the contract of a function that does nothing.
ghost use Rattle.std.specs.Prelude.{◌≡◌, ◌≤◌, ◌+◌, ℕ, length};
ghost use Rattle.ice_base.specs.Disk.{Image, DiskState};
ghost use Rattle.ice_base.specs.Frames.{Every, Kept, RestsOn};
ghost use Rattle.ice_base.specs.Lots.{LotView, extent};
ghost use Rattle.tree_spec.specs.Costs.{Form};
ghost use Rattle.tree_spec.specs.Records.{History, Mode, cut_to, floor, fresh, tree_at};
ghost use Rattle.ice_cube.specs.Cubes.{CubeView, HasHistory, Holds};
ghost use Rattle.ice_cube.specs.Wider.{HasNewGroups, IsWider};

/// What a cube holds outlasts calls that keep its lot's blocks, barriers among them, and what its lot has rests on these blocks.
#[tactic(auto, using(crate::proofs::CubeLaws::holds_kept, crate::proofs::CubeLaws::history_rests))]
pub fn cubes_outlast_others()
    ensures holds { (f : Form) (mode : Mode) (h : History) (c : CubeView) (s t : DiskState)
        → Kept (extent c.lot) s t → Holds f mode h c s → Holds f mode h c t }
    ensures rests { (lot : LotView) (f : Form) (mode : Mode) (h : History)
        → RestsOn (extent lot) (HasHistory lot f mode h) }
{}

/// A cube that was mounted with the tree of one of a history's counts holds the history that is cut to that count.
#[tactic(auto, using(crate::proofs::CubeLaws::holds_cut))]
pub fn mounted_cube_holds_cut()
    ensures { (f : Form) (mode : Mode) (h : History) (j : ℕ) (c : CubeView) (s : DiskState)
        → j ≤ length h.since → Holds f mode (fresh (tree_at h j) (floor h + j)) c s → Holds f mode (cut_to h j) c s }
{}

/// What a lot has, a wider lot has as well, where its further groups are fresh and settled.
pub fn wider_lots_have_the_same()
    ensures { (old lot : LotView) (f : Form) (mode : Mode) (h : History) (s : DiskState) → IsWider old lot
        → HasNewGroups old lot s → Every (extent old) s (HasHistory old f mode h) → Every (extent lot) s (HasHistory lot f mode h) }
{}
