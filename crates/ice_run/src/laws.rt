//! A law of sessions, the contract of a function that does nothing.
ghost use Rattle.std.specs.Prelude.{ℕ, List};
ghost use Rattle.tree_spec.specs.World.{World};
ghost use Rattle.ice_volume.specs.Lines.{SaysBroken};
ghost use Rattle.ice_run.specs.Crashes.{StaysBroken};
ghost use Rattle.ice_run.specs.Mending.{NoneMends};
ghost use Rattle.ice_run.specs.Runs.{Answered, Runs};

/// A cube that is broken stays so as long as no line is a `grow` or a `delete` of it, `mount` and `check` among them.
pub fn broken_cubes_stay_broken()
    ensures { (x : ℕ) (w : World) (steps : List Answered) → Runs w steps → SaysBroken (w.cube x) → NoneMends x w steps → StaysBroken x w steps }
{}
