//! Commands that change nothing.
ghost use Rattle.std.specs.Prelude.{◌≡◌, ◌≤◌, ◌<◌, ◌*◌, ℕ, List, true, [], ◌∷◌, IfOk, IfErr, OnOk, length, drop};
ghost use Rattle.ice_base.specs.Disk.{Caused};
ghost use Rattle.ice_base.specs.Lots.{is_sited};
ghost use Rattle.ice_base.specs.Views.{Looked, IfShown};
ghost use Rattle.tree_spec.specs.Held.{RoomContent, most_bytes};
ghost use Rattle.tree_spec.specs.Answers.{answer};
ghost use Rattle.tree_spec.specs.Costs.{form_of, form_one};
ghost use Rattle.tree_spec.specs.Operations.{Read, Stat};
ghost use Rattle.tree_spec.specs.Replies.{meant, Tallies};
ghost use Rattle.tree_spec.specs.Trees.{Found, File, walk};
ghost use Rattle.tree_spec.specs.declared.reply.Refusal.TheVariants.{Fault};
ghost use Rattle.ice_map.specs.Own.{own};
ghost use Rattle.ice_map.specs.Inodes.{inode_of};
ghost use Rattle.ice_dir.specs.Rows.{IsDirectory};
ghost use Rattle.ice_look.specs.Outcomes.{IsOneOf, read_refusals, look_refusals, look_rules};
ghost use Rattle.ice_look.specs.Places.{IsReached, PlaceIs};
ghost use Rattle.ice_look.specs.Stages.{file_refusal, dir_refusal};
ghost use Rattle.ice_look.specs.declared.place.Place.TheVariants.{File as AtFile, Dir as AtDir};
ghost use Rattle.ice_look.specs.Ends.{IsDirAt, DirFits};
ghost use Rattle.ice_look.specs.Calls.{IfRecovers, AnswersAs, inode_at, Finds, RefusesPaths, Untouched, NamesBroken};

use crate::fault::refusal_of;
use crate::paths::check_path;
use crate::place::{Place, walk};
use ice_base::{Disk, Form, Lot, View};
use ice_file::read_in;
use ice_map::Inode;
use tree_spec::{Path, Refusal, Reply, Room, Value};

/// The file at a path's end: the number of its inode, its size in bytes, and the inode.
#[derive(Clone, Copy, Drop)]
pub struct FileAt {
    pub number: u32,
    pub size: u32,
    pub node: Inode,
}

/// The file at a path's end. NotFound and NotDir: the walk ends so. IsDir: a directory stands there.
pub fn file_at<D: Disk, V: View<D>, F: Form>(
    view: &mut V,
    disk: &mut D,
    lot: &Lot,
    path: &Path,
    depth: usize,
) -> Result<FileAt, Refusal>
    // The lot lies on the disk and has a group, and the path begins with the cube's names.
    requires sited { is_sited lot.now (D.state disk.old).size ≡ true }
    requires some { 1 ≤ length lot.now.groups }
    requires depth { depth ≤ length path.now }
    // Over a lot that recovers a tree, it finds what the tree has.
    ensures found { IfRecovers V.View F.VERSION lot.now view.old disk.old (λ old t _.
        Finds (λ file. (bytes : List ℕ) × (walk (drop depth path.now) t ≡ Found (File bytes))
        × (file.number ≡ inode_at F.VERSION old (drop depth path.now)) × (file.size ≡ length bytes))
        (file_refusal (walk (drop depth path.now) t)) result) }
    // What it answers of any lot, damaged or not.
    ensures fits { IfOk result (λ file. (file.number < 64 * length lot.now.groups)
        × (file.size ≤ form_one.longest_file)) }
    ensures node { IfOk result (λ file. (file.node.kind ≡ 1) × (file.node.size ≡ file.size)) }
    ensures node_is { IfShown V.View lot.now view.old disk.old (λ old.
        IfOk result (λ file. file.node ≡ inode_of old file.number)) }
    ensures is { IfShown V.View lot.now view.old disk.old (λ old.
        IfOk result (λ file. PlaceIs old (AtFile file.number file.size))) }
    ensures reached { IfShown V.View lot.now view.old disk.old (λ old.
        IfOk result (λ file. IsReached (form_of F.VERSION) lot.now old file.number)) }
    // Damage that it names is there.
    ensures damaged { NamesBroken V.View (form_of F.VERSION) lot.now view.old disk.old result }
    // What stays as it was.
    ensures looked { Looked D.Disk V.View lot.now view.old disk.old view.new disk.new }
    // Which refusals there are, and when a fault comes.
    ensures set { IfErr result (IsOneOf read_refusals look_rules) }
    ensures failed { Caused D.state Fault result disk.old disk.new }
{
    let mut node = Inode::empty(0);
    match walk::<D, V, F>(view, disk, lot, path, depth, path.len(), &mut node) {
        Ok(Place::File { number, size }) => Ok(FileAt { number, size, node }),
        Ok(Place::Dir { .. }) => Err(Refusal::IsDir),
        Ok(Place::Missing) => Err(Refusal::NotFound),
        Ok(Place::Blocked) => Err(Refusal::NotDir),
        Err(fault) => Err(refusal_of(fault)),
    }
}

/// A directory at a path's end, or one in which an entry stands or is to stand: the number of its inode, how many entries it has, and the inode.
#[derive(Clone, Copy, Drop)]
pub struct DirAt {
    pub number: u32,
    pub entries: u32,
    pub node: Inode,
}

/// The directory at a path's end. NotFound and NotDir: the walk ends so. NotDir: a file stands there.
pub(crate) fn dir_at<D: Disk, V: View<D>, F: Form>(
    view: &mut V,
    disk: &mut D,
    lot: &Lot,
    path: &Path,
    depth: usize,
) -> Result<DirAt, Refusal>
    // The lot lies on the disk and has a group, and the path begins with the cube's names.
    requires sited { is_sited lot.now (D.state disk.old).size ≡ true }
    requires some { 1 ≤ length lot.now.groups }
    requires depth { depth ≤ length path.now }
    // Over a lot that recovers a tree, it finds what the tree has.
    ensures found { IfRecovers V.View F.VERSION lot.now view.old disk.old (λ old t _.
        Finds (IsDirAt (form_of F.VERSION) (own (form_of F.VERSION) old)
        (drop depth path.now) t) (dir_refusal (walk (drop depth path.now) t)) result) }
    // What it answers of any lot, damaged or not.
    ensures fits { IfOk result (DirFits lot.now) }
    ensures node_is { IfShown V.View lot.now view.old disk.old (λ old.
        IfOk result (λ dir. dir.node ≡ inode_of old dir.number)) }
    ensures is { IfShown V.View lot.now view.old disk.old (λ old.
        IfOk result (λ dir. PlaceIs old (AtDir dir.number dir.entries))) }
    ensures reached { IfShown V.View lot.now view.old disk.old (λ old.
        IfOk result (λ dir. IsReached (form_of F.VERSION) lot.now old dir.number)) }
    // Damage that it names is there.
    ensures damaged { NamesBroken V.View (form_of F.VERSION) lot.now view.old disk.old result }
    // What stays as it was.
    ensures looked { Looked D.Disk V.View lot.now view.old disk.old view.new disk.new }
    // Which refusals there are, and when a fault comes.
    ensures set { IfErr result (IsOneOf look_refusals look_rules) }
    ensures failed { Caused D.state Fault result disk.old disk.new }
{
    let mut node = Inode::empty(0);
    match walk::<D, V, F>(view, disk, lot, path, depth, path.len(), &mut node) {
        Ok(Place::Dir { number, size }) => Ok(DirAt {
            number,
            entries: size,
            node,
        }),
        Ok(Place::File { .. }) => Err(Refusal::NotDir),
        Ok(Place::Missing) => Err(Refusal::NotFound),
        Ok(Place::Blocked) => Err(Refusal::NotDir),
        Err(fault) => Err(refusal_of(fault)),
    }
}

/// Puts the bytes of a file from `at` on into the room, `len` of them or as many as there are. `depth` is the number of names of the cube's path.
/// After a refusal any bytes may stand in the room.
pub fn read<D: Disk, V: View<D>, F: Form>(
    view: &mut V,
    disk: &mut D,
    lot: &Lot,
    path: &Path,
    depth: usize,
    at: u32,
    len: u32,
    room: &mut Room,
) -> Reply
    // The lot lies on the disk and has a group, the path begins with the cube's names, and the room for the answer is empty.
    requires sited { is_sited lot.now (D.state disk.old).size ≡ true }
    requires some { 1 ≤ length lot.now.groups }
    requires depth { depth ≤ length path.now }
    requires few { len ≤ most_bytes }
    requires bytes { room.old.bytes ≡ [] }
    requires entries { room.old.entries ≡ [] }
    requires rows { room.old.rows ≡ [] }
    // Over a lot that recovers a tree, the answer is the model's.
    ensures answers { AnswersAs V.View F.VERSION lot.now view.old disk.old
        (Read (drop depth path.now) at len) (meant result room.new) }
    // What it answers of any lot, damaged or not.
    ensures tallies { Tallies result room.new }
    // Damage that it names is there.
    ensures damaged { NamesBroken V.View (form_of F.VERSION) lot.now view.old disk.old result }
    // Names alone refuse a path before any call of the disk.
    ensures paths { RefusesPaths F.VERSION (drop depth path.now ∷ []) result }
    ensures untouched { Untouched F.VERSION (drop depth path.now ∷ [])
        view.old disk.old view.new disk.new }
    // What stays as it was.
    ensures entries { room.new.entries ≡ [] }
    ensures rows { room.new.rows ≡ [] }
    ensures looked { Looked D.Disk V.View lot.now view.old disk.old view.new disk.new }
    // Which refusals there are, and when a fault comes.
    ensures set { IfErr result (IsOneOf read_refusals look_rules) }
    ensures failed { Caused D.state Fault result disk.old disk.new }
{
    if let Err(refusal) = check_path::<F>(path, depth) {
        return Err(refusal);
    }
    match file_at::<D, V, F>(view, disk, lot, path, depth) {
        Err(refusal) => Err(refusal),
        Ok(file) => {
            if at > file.size {
                return Err(Refusal::BeyondEnd);
            }
            match read_in::<D, V, F>(view, disk, lot, &file.node, at, len, room) {
                Ok(()) => Ok(Value::Bytes),
                Err(fault) => Err(refusal_of(fault)),
            }
        }
    }
}

/// Whether a path ends at a directory or at a file, with the number of its entries or bytes. `depth` is the number of names of the cube's path.
pub fn stat<D: Disk, V: View<D>, F: Form>(
    view: &mut V,
    disk: &mut D,
    lot: &Lot,
    path: &Path,
    depth: usize,
) -> Reply
    // The lot lies on the disk and has a group, and the path begins with the cube's names.
    requires sited { is_sited lot.now (D.state disk.old).size ≡ true }
    requires some { 1 ≤ length lot.now.groups }
    requires depth { depth ≤ length path.now }
    // Over a lot that recovers a tree, the answer is the model's.
    ensures answers { (room : RoomContent) → AnswersAs V.View F.VERSION lot.now view.old disk.old
        (Stat (drop depth path.now)) (meant result room) }
    // What it answers of any lot, damaged or not.
    ensures tallies { (room : RoomContent) → Tallies result room }
    // Damage that it names is there.
    ensures damaged { NamesBroken V.View (form_of F.VERSION) lot.now view.old disk.old result }
    // Names alone refuse a path before any call of the disk.
    ensures paths { RefusesPaths F.VERSION (drop depth path.now ∷ []) result }
    ensures untouched { Untouched F.VERSION (drop depth path.now ∷ [])
        view.old disk.old view.new disk.new }
    // What stays as it was.
    ensures looked { Looked D.Disk V.View lot.now view.old disk.old view.new disk.new }
    // Which refusals there are, and when a fault comes.
    ensures set { IfErr result (IsOneOf look_refusals look_rules) }
    ensures failed { Caused D.state Fault result disk.old disk.new }
{
    if let Err(refusal) = check_path::<F>(path, depth) {
        return Err(refusal);
    }
    let mut node = Inode::empty(0);
    match walk::<D, V, F>(view, disk, lot, path, depth, path.len(), &mut node) {
        Ok(Place::File { size, .. }) => Ok(Value::File(size)),
        Ok(Place::Dir { size, .. }) => Ok(Value::Dir(size)),
        Ok(Place::Missing) => Err(Refusal::NotFound),
        Ok(Place::Blocked) => Err(Refusal::NotDir),
        Err(fault) => Err(refusal_of(fault)),
    }
}
