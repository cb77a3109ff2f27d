//! The laws of damage, each the contract of a function that does nothing.
ghost use Rattle.std.specs.Prelude.{◌<◌, ℕ, List, length};
ghost use Rattle.ice_base.specs.Lots.{LotView};
ghost use Rattle.ice_base.specs.declared.fault.Rule.{Rule};
ghost use Rattle.tree_spec.specs.Trees.{Tree};
ghost use Rattle.tree_spec.specs.Costs.{form_one};
ghost use Rattle.ice_reads.specs.Recovers.{MapRecovers};
ghost use Rattle.ice_rules.specs.Rules.{MayName, form_in};
ghost use Rattle.ice_look.specs.Broken.{IsBroken};

/// A lot that recovers a tree breaks none of the rules that a command can name.
#[tactic(auto, using(crate::proofs::SoundLaws::recovers_unbroken))]
pub fn recovers_unbroken()
    ensures { (mode : ℕ) (lot : LotView) (m : ℕ → List ℕ) (t : Tree) (k : ℕ) (r : Rule)
        → MapRecovers form_one mode lot m t k → ¬ IsBroken form_one lot m r }
{}

/// Where a lot of some groups breaks such a rule, some rule may be named of it.
pub fn broken_named()
    ensures { (lot : LotView) (m : ℕ → List ℕ) (r : Rule) → 0 < length lot.groups
        → IsBroken form_one lot m r → (x : Rule) × MayName (form_in m) lot m x }
{}
