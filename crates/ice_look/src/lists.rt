//! Listings of directories.
ghost use Rattle.std.specs.Prelude.{◌≡◌, ◌≤◌, ◌<◌, ◌+◌, ◌*◌, ◌++◌, ℕ, true, [], ◌∷◌, Some, OnOk, OnErr, IfErr, length, drop, map, slice_get, IsPermutation, IsSorted};
ghost use Rattle.ice_base.specs.Disk.{Caused};
ghost use Rattle.ice_base.specs.Lots.{is_sited};
ghost use Rattle.ice_base.specs.Views.{Looked, IfShown};
ghost use Rattle.ice_base.specs.declared.fault.OpFault.TheVariants.{Disk as FaultDisk};
ghost use Rattle.ice_map.specs.Inodes.{inode_of};
ghost use Rattle.ice_dir.specs.Rows.{DirRow, IsDirectory, HasEntry};
ghost use Rattle.tree_spec.specs.Answers.{answer};
ghost use Rattle.tree_spec.specs.Costs.{form_of};
ghost use Rattle.tree_spec.specs.Held.{by_name, most_entries};
ghost use Rattle.tree_spec.specs.Operations.{ListDir};
ghost use Rattle.tree_spec.specs.Replies.{meant, Tallies};
ghost use Rattle.tree_spec.specs.Trees.{Entries, Dir, rows};
ghost use Rattle.tree_spec.specs.declared.reply.Refusal.TheVariants.{Fault};
ghost use Rattle.tree_spec.specs.declared.reply.Value.TheVariants.{Listed};
ghost use Rattle.ice_map.specs.Own.{own};
ghost use Rattle.ice_reads.specs.Tables.{rows_in};
ghost use Rattle.ice_look.specs.Broken.{BadEntry, IsBrokenBy};
ghost use Rattle.ice_look.specs.Listings.{listed_as, IsListFault};
ghost use Rattle.ice_look.specs.Outcomes.{IsOneOf, look_refusals, list_rules};
ghost use Rattle.ice_look.specs.Places.{IsReached};
ghost use Rattle.ice_look.specs.Calls.{AnswersAs, FailsByDisk, ReadsIn, RefusesPaths, Untouched, NamesBroken};

use crate::blank::blank_name;
use crate::fault::refusal_of;
use crate::looks::dir_at;
use crate::paths::check_path;
use crate::place::{Place, enter_named};
use ice_base::{Disk, Form, Lot, OpFault, View};
use ice_dir::entry_in;
use ice_map::Inode;
use tree_spec::{Entry, Path, Refusal, Reply, Room, Value};

/// Adds entry `k` of a directory to the room. After an `Err` the room is as before.
fn add_entry<D: Disk, V: View<D>, F: Form>(
    view: &mut V,
    disk: &mut D,
    lot: &Lot,
    node: &Inode,
    k: u32,
    room: &mut Room,
) -> Result<(), OpFault>
    // The lot lies on the disk, and the inode in hand is a directory's.
    requires sited { is_sited lot.now (D.state disk.old).size ≡ true }
    requires is { IsDirectory lot.now node.now }
    requires fits { length room.old.entries < most_entries }
    // Where the inode stands for a tree, it finds what the tree has; the disk alone may fail.
    ensures added { (number h : ℕ) (es : Entries) (row : DirRow)
        → IfShown V.View lot.now view.old disk.old (λ old.
        node.now ≡ inode_of old number → ReadsIn F.VERSION lot.now old number h (Dir es)
        → slice_get (rows_in (form_of F.VERSION) (own (form_of F.VERSION) old number))
        k ≡ Some row → IsReached (form_of F.VERSION) lot.now old number → ¬ BadEntry (form_of F.VERSION) lot.now old
        → OnOk result (room.new.entries ≡ room.old.entries ++ listed_as es row ∷ [])) }
    ensures sound { (number h : ℕ) (es : Entries) → IfShown V.View lot.now view.old disk.old (λ old.
        node.now ≡ inode_of old number → ReadsIn F.VERSION lot.now old number h (Dir es) → k < length (rows es)
        → IsReached (form_of F.VERSION) lot.now old number → ¬ BadEntry (form_of F.VERSION) lot.now old
        → FailsByDisk result) }
    // What it answers of any lot, damaged or not.
    ensures one { OnOk result (length room.new.entries ≡ length room.old.entries + 1) }
    // Damage that it names is there.
    ensures broken { (number : ℕ) → IfShown V.View lot.now view.old disk.old (λ old.
        node.now ≡ inode_of old number → IsReached (form_of F.VERSION) lot.now old number → HasEntry lot.now k node.now
        → IfErr result (IsBrokenBy (form_of F.VERSION) lot.now old)) }
    // What stays as it was.
    ensures kept { OnErr result (room.new.entries ≡ room.old.entries) }
    ensures bytes { room.new.bytes ≡ room.old.bytes }
    ensures rows { room.new.rows ≡ room.old.rows }
    ensures looked { Looked D.Disk V.View lot.now view.old disk.old view.new disk.new }
    // Which refusals there are, and when a fault comes.
    ensures faults { IfErr result IsListFault }
    ensures failed { Caused D.state FaultDisk result disk.old disk.new }
{
    let mut name = blank_name();
    let next = entry_in::<D, V, F>(view, disk, lot, node, k, &mut name)?;
    let mut child = Inode::empty(0);
    let place = enter_named::<D, V, F>(view, disk, lot, next, &mut child)?;
    let dir = matches!(place, Place::Dir { .. });
    room.add_entry(Entry { name, dir });
    Ok(())
}

/// Adds the first `count` entries of a directory to the room, in the order in which they stand in its blocks.
fn add_entries<D: Disk, V: View<D>, F: Form>(
    view: &mut V,
    disk: &mut D,
    lot: &Lot,
    node: &Inode,
    count: u32,
    room: &mut Room,
) -> Result<(), OpFault>
    // The lot lies on the disk, and the inode in hand is a directory's.
    requires sited { is_sited lot.now (D.state disk.old).size ≡ true }
    requires is { IsDirectory lot.now node.now }
    requires few { count ≤ most_entries }
    requires empty { room.old.entries ≡ [] }
    // Where the inode stands for a tree, it finds what the tree has; the disk alone may fail.
    ensures listed { (number h : ℕ) (es : Entries) → IfShown V.View lot.now view.old disk.old (λ old.
        node.now ≡ inode_of old number → ReadsIn F.VERSION lot.now old number h (Dir es) → count ≡ length (rows es)
        → IsReached (form_of F.VERSION) lot.now old number → ¬ BadEntry (form_of F.VERSION) lot.now old
        → OnOk result (room.new.entries ≡ map (listed_as es)
        (rows_in (form_of F.VERSION) (own (form_of F.VERSION) old number)))) }
    ensures sound { (number h : ℕ) (es : Entries) → IfShown V.View lot.now view.old disk.old (λ old.
        node.now ≡ inode_of old number → ReadsIn F.VERSION lot.now old number h (Dir es) → count ≡ length (rows es)
        → IsReached (form_of F.VERSION) lot.now old number → ¬ BadEntry (form_of F.VERSION) lot.now old
        → FailsByDisk result) }
    // What it answers of any lot, damaged or not.
    ensures all { OnOk result (length room.new.entries ≡ count) }
    // Damage that it names is there.
    ensures broken { (number : ℕ) → IfShown V.View lot.now view.old disk.old (λ old.
        node.now ≡ inode_of old number → IsReached (form_of F.VERSION) lot.now old number
        → count ≤ node.now.size → IfErr result (IsBrokenBy (form_of F.VERSION) lot.now old)) }
    // What stays as it was.
    ensures bytes { room.new.bytes ≡ room.old.bytes }
    ensures rows { room.new.rows ≡ room.old.rows }
    ensures looked { Looked D.Disk V.View lot.now view.old disk.old view.new disk.new }
    // Which refusals there are, and when a fault comes.
    ensures faults { IfErr result IsListFault }
    ensures failed { Caused D.state FaultDisk result disk.old disk.new }
{
    for k in 0..count {
        add_entry::<D, V, F>(view, disk, lot, node, k, room)?;
    }
    Ok(())
}

/// Puts the entries of a room in ascending order of the bytes of their names, and answers how many there are.
fn in_order(room: &mut Room) -> Value
    // What it is called with.
    requires { room.old.rows ≡ [] }
    // What it answers of any lot, damaged or not.
    ensures permutation { IsPermutation room.old.entries room.new.entries }
    ensures sorted { IsSorted by_name room.new.entries }
    ensures number { result ≡ Listed (length room.new.entries) }
    // What stays as it was.
    ensures bytes { room.new.bytes ≡ room.old.bytes }
    ensures rows { room.new.rows ≡ [] }
{
    room.sort_entries();
    Value::Listed(room.entries().len() as u32)
}

/// Puts the entries of a directory into the room, in ascending order of the bytes of their names. `depth` is the number of names of the cube's path.
/// NotDir: a file stands at the path's end. After a refusal any entries may stand in the room.
pub fn list<D: Disk, V: View<D>, F: Form>(
    view: &mut V,
    disk: &mut D,
    lot: &Lot,
    path: &Path,
    depth: usize,
    room: &mut Room,
) -> Reply
    // The lot lies on the disk and has a group, the path begins with the cube's names, and the room for the answer is empty.
    requires sited { is_sited lot.now (D.state disk.old).size ≡ true }
    requires some { 1 ≤ length lot.now.groups }
    requires depth { depth ≤ length path.now }
    requires bytes { room.old.bytes ≡ [] }
    requires entries { room.old.entries ≡ [] }
    requires rows { room.old.rows ≡ [] }
    // Over a lot that recovers a tree, the answer is the model's.
    ensures answers { AnswersAs V.View F.VERSION lot.now view.old disk.old
        (ListDir (drop depth path.now)) (meant result room.new) }
    // What it answers of any lot, damaged or not.
    ensures tallies { Tallies result room.new }
    // Damage that it names is there.
    ensures damaged { NamesBroken V.View (form_of F.VERSION) lot.now view.old disk.old result }
    // Names alone refuse a path before any call of the disk.
    ensures paths { RefusesPaths F.VERSION (drop depth path.now ∷ []) result }
    ensures untouched { Untouched F.VERSION (drop depth path.now ∷ [])
        view.old disk.old view.new disk.new }
    // What stays as it was.
    ensures bytes { room.new.bytes ≡ [] }
    ensures rows { room.new.rows ≡ [] }
    ensures looked { Looked D.Disk V.View lot.now view.old disk.old view.new disk.new }
    // Which refusals there are, and when a fault comes.
    ensures set { IfErr result (IsOneOf look_refusals list_rules) }
    ensures failed { Caused D.state Fault result disk.old disk.new }
{
    if let Err(refusal) = check_path::<F>(path, depth) {
        return Err(refusal);
    }
    match dir_at::<D, V, F>(view, disk, lot, path, depth) {
        Err(refusal) => Err(refusal),
        Ok(dir) => match add_entries::<D, V, F>(view, disk, lot, &dir.node, dir.entries, room) {
            Err(fault) => Err(refusal_of(fault)),
            Ok(()) => Ok(in_order(room)),
        },
    }
}
