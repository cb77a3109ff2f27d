//! Laws of sessions, each the contract of a function that does nothing.
ghost use Rattle.std.specs.Prelude.{◌≡◌, ◌≤◌, ℕ, List, length, Some};
ghost use Rattle.ice_base.specs.Disk.{Image};
ghost use Rattle.tree_spec.specs.Lines.{Line};
ghost use Rattle.tree_spec.specs.Records.{Cube, Sound, History, floor, done, tree_now, mode_after};
ghost use Rattle.tree_spec.specs.World.{World};
ghost use Rattle.ice_tables.specs.Tables.{Tables, HasTables};
ghost use Rattle.ice_tables.specs.Lots.{lot_of};
ghost use Rattle.ice_images.specs.Recovering.{Recovers};
ghost use Rattle.ice_images.specs.Fitting.{Fits};
ghost use Rattle.ice_volume.specs.Sessions.{finished};
ghost use Rattle.ice_run.specs.Crashes.{Reached};
ghost use Rattle.ice_run.specs.Runs.{Answered, Runs};
ghost use Rattle.ice_headline.specs.Acknowledged.{acknowledged_from, Includes};

use tree_spec::StateWord;

/// What the cube of a slot acknowledged in the lines that were answered its floor has reached, after them and after the line in work.
/// And the commands that were acknowledged come first, in their order, among its first k accepted ones for each k from the floor on.
pub fn acknowledged_is_kept()
    ensures count { (x : ℕ) (w : World) (script : List Line) (steps : List Answered) (tail : List ℕ) (v : World) (c : Cube) (h : History)
        → Runs w steps → Reached w script steps tail v → v.cube x ≡ Some c → c.content ≡ Sound h → acknowledged_from 0 x w steps ≤ floor h }
    ensures commands { (x : ℕ) (w : World) (script : List Line) (steps : List Answered) (tail : List ℕ) (v : World) (c : Cube) (h : History)
        → Runs w steps → Reached w script steps tail v → v.cube x ≡ Some c → c.content ≡ Sound h
        → (k : ℕ) → floor h ≤ k → Includes x w steps h k }
{}

/// After a session whose end was good each cube that was mounted recovers all that it accepted, in every image that fits its end.
pub fn mounted_cubes_keep_all()
    ensures { (w : World) (image : Image) (s : ℕ) (c : Cube) (h : History)
        → Fits (finished w) image → w.cube s ≡ Some c → c.state ≡ StateWord.Mounted → c.content ≡ Sound h
        → (t : Tables) × HasTables image t × Recovers (lot_of t s) image c.form (mode_after c.mode h (length h.since)) (tree_now h) (done h) }
{}
