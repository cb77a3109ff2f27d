//! Changes of the bytes of files.
ghost use Rattle.std.specs.Prelude.{◌≡◌, ◌≤◌, ◌<◌, ◌+◌, ◌*◌, ℕ, List, true, [], ◌∷◌, None, OnOk, IfOk, IfErr, length, drop};
ghost use Rattle.ice_base.specs.Disk.{Caused};
ghost use Rattle.ice_base.specs.Lots.{is_sited, sub_address};
ghost use Rattle.ice_base.specs.Views.{Looked, Spent, AsShown, IfShown};
ghost use Rattle.ice_base.specs.declared.fault.OpFault.TheVariants.{Disk as FaultDisk};
ghost use Rattle.ice_map.specs.Inodes.{inode_of};
ghost use Rattle.tree_spec.specs.Held.{most_bytes};
ghost use Rattle.tree_spec.specs.Answers.{answer, next_tree, refusal};
ghost use Rattle.tree_spec.specs.Costs.{form_of, map_cost, file_blocks, form_one};
ghost use Rattle.tree_spec.specs.Operations.{Write, Trunc};
ghost use Rattle.tree_spec.specs.Trees.{Tree};
ghost use Rattle.tree_spec.specs.declared.reply.Refusal.TheVariants.{Fault};
ghost use Rattle.ice_reads.specs.Recovers.{MapRecovers};
ghost use Rattle.ice_map.specs.Own.{own};
ghost use Rattle.ice_look.specs.Broken.{IsBrokenBy};
ghost use Rattle.ice_tree.specs.Writes.{IsFile, FileFits, TakesAt, reach_refusal, FileIs, BytesFit};
ghost use Rattle.ice_tree.specs.Quotas.{CanCount};
ghost use Rattle.ice_look.specs.Outcomes.{meant_plain, IsOneOf, read_refusals, look_rules};
ghost use Rattle.ice_tree.specs.Outcomes.{IsNamedIn, write_refusals, trunc_refusals, change_rules};
ghost use Rattle.ice_look.specs.Stages.{paths_refusal};
ghost use Rattle.ice_look.specs.Calls.{IfRecovers, AnswersAs, FailsByDisk, inode_at, Finds, Accepts, RefusesPaths, Untouched, NamesBroken};
ghost use Rattle.ice_tree.specs.Calls.{ChangesAs, UntouchedAll, LooksIfRefused};

use crate::counts::count_up;
use crate::quota::{Need, check_quota, file_cost};
use ice_base::{Disk, Form, Keep, Lot, OpFault, Pool, View};
use ice_file::{cut_in, write_in};
use ice_look::{FileAt, check_path, file_at, refusal_of};
use ice_map::longest_file;
use tree_spec::{Path, Refusal};

/// What a file of another size costs: `new` in place of `old` bytes.
fn size_need(old: u32, new: u32) -> Need
    requires old { old ≤ form_one.longest_file }
    requires new { new ≤ form_one.longest_file }
    ensures { result ≡ record {
      nodes = 0;
      lost = 0;
      blocks = map_cost (file_blocks new);
      freed = map_cost (file_blocks old);
    } }
{
    Need {
        nodes: 0,
        lost: 0,
        blocks: file_cost(new),
        freed: file_cost(old),
    }
}

/// The file at a path's end. BeyondEnd: it has fewer than `at` bytes.
#[tactic(auto, using(ice_map::proofs::SizeLaws::size_laws))]
fn reach_file<D: Disk, V: View<D>, F: Form>(
    view: &mut V,
    disk: &mut D,
    lot: &Lot,
    path: &Path,
    depth: usize,
    at: u32,
) -> Result<FileAt, Refusal>
    // The lot lies on the disk and has a group, and the path begins with the cube's names.
    requires sited { is_sited lot.now (D.state disk.old).size ≡ true }
    requires some { 1 ≤ length lot.now.groups }
    requires depth { depth ≤ length path.now }
    // Over a lot that recovers a tree, it finds what the tree has.
    ensures found { IfRecovers V.View F.VERSION lot.now view.old disk.old (λ old t _.
        Finds (IsFile (form_of F.VERSION) (own (form_of F.VERSION) old)
        (drop depth path.now) t at) (reach_refusal (form_of F.VERSION) (drop depth path.now) at t)
        result) }
    // What it answers of any lot, damaged or not.
    ensures names { OnOk result (paths_refusal (form_of F.VERSION)
        (drop depth path.now ∷ []) ≡ None) }
    ensures fits { IfOk result (FileFits lot.now at) }
    ensures is { IfShown V.View lot.now view.old disk.old (λ old.
        IfOk result (λ file. FileIs (form_of F.VERSION) lot.now old at file.number file.node)) }
    ensures size { IfShown V.View lot.now view.old disk.old (λ old.
        IfOk result (λ file. (inode_of old file.number).size ≡ file.size)) }
    // Damage that it names is there.
    ensures damaged { NamesBroken V.View (form_of F.VERSION) lot.now view.old disk.old result }
    // Names alone refuse a path before any call of the disk.
    ensures paths { RefusesPaths F.VERSION (drop depth path.now ∷ []) result }
    ensures untouched { Untouched F.VERSION (drop depth path.now ∷ [])
        view.old disk.old view.new disk.new }
    // What stays as it was.
    ensures looked { Looked D.Disk V.View lot.now view.old disk.old view.new disk.new }
    // Which refusals there are, and when a fault comes.
    ensures set { IfErr result (IsOneOf read_refusals look_rules) }
    ensures failed { Caused D.state Fault result disk.old disk.new }
{
    if let Err(refusal) = check_path::<F>(path, depth) {
        return Err(refusal);
    }
    match file_at::<D, V, F>(view, disk, lot, path, depth) {
        Err(refusal) => Err(refusal),
        Ok(file) => {
            if at > file.size {
                return Err(Refusal::BeyondEnd);
            }
            Ok(file)
        }
    }
}

/// The file that is written, where nothing refuses that. FileBig: it would be too long.
#[tactic(auto, using(ice_map::proofs::SizeLaws::size_laws))]
fn check_write<D: Disk, K: Keep<D>, P: Pool<D, K>, F: Form>(
    keep: &mut K,
    pool: &mut P,
    disk: &mut D,
    lot: &Lot,
    path: &Path,
    depth: usize,
    at: u32,
    bytes: &[u8],
) -> Result<FileAt, Refusal>
    // The lot lies on the disk and has a group, and the path begins with the cube's names.
    requires sited { is_sited lot.now (D.state disk.old).size ≡ true }
    requires some { 1 ≤ length lot.now.groups }
    requires depth { depth ≤ length path.now }
    requires few { length bytes.now ≤ most_bytes }
    // Over a lot that recovers a tree, it finds what the tree has.
    ensures file { IfRecovers K.View F.VERSION lot.now keep.old disk.old (λ old t k.
        Accepts (λ file. file.number ≡ inode_at F.VERSION old (drop depth path.now))
        (refusal t k (length lot.now.groups) (form_of F.VERSION)
        (Write (drop depth path.now) at bytes.now)) result) }
    // What it answers of any lot, damaged or not.
    ensures fits { IfOk result (FileFits lot.now at) }
    ensures short { OnOk result (at + length bytes.now ≤ (form_of F.VERSION).longest_file) }
    ensures ready { IfShown K.View lot.now keep.old disk.old (λ old.
        IfOk result (λ file. BytesFit (form_of F.VERSION) lot.now old at (at + length bytes.now)
        file.number file.node)) }
    // Damage that it names is there.
    ensures damaged { NamesBroken K.View (form_of F.VERSION) lot.now keep.old disk.old result }
    // Names alone refuse a path before any call of the disk.
    ensures paths { RefusesPaths F.VERSION (drop depth path.now ∷ []) result }
    ensures untouched { UntouchedAll F.VERSION (drop depth path.now ∷ [])
        keep.old pool.old disk.old keep.new pool.new disk.new }
    // What stays as it was.
    ensures looked { Looked D.Disk K.View lot.now keep.old disk.old keep.new disk.new }
    // Which refusals there are, and when a fault comes.
    ensures set { IfErr result (IsOneOf write_refusals change_rules) }
    ensures failed { Caused D.state Fault result disk.old disk.new }
{
    let file = match reach_file::<D, K, F>(keep, disk, lot, path, depth, at) {
        Ok(file) => file,
        Err(refusal) => return Err(refusal),
    };
    let end = at + bytes.len() as u32;
    let longest = longest_file::<F>();
    if end > longest {
        return Err(Refusal::FileBig);
    }
    let need = size_need(file.size, file.size.max(end));
    match check_quota::<D, K, P, F>(keep, pool, disk, lot, &need) {
        Ok(()) => Ok(file),
        Err(refusal) => Err(refusal),
    }
}

/// The file that is cut, where nothing refuses that.
#[tactic(auto, using(ice_map::proofs::SizeLaws::size_laws))]
fn check_trunc<D: Disk, K: Keep<D>, P: Pool<D, K>, F: Form>(
    keep: &mut K,
    pool: &mut P,
    disk: &mut D,
    lot: &Lot,
    path: &Path,
    depth: usize,
    len: u32,
) -> Result<FileAt, Refusal>
    // The lot lies on the disk and has a group, and the path begins with the cube's names.
    requires sited { is_sited lot.now (D.state disk.old).size ≡ true }
    requires some { 1 ≤ length lot.now.groups }
    requires depth { depth ≤ length path.now }
    // Over a lot that recovers a tree, it finds what the tree has.
    ensures file { IfRecovers K.View F.VERSION lot.now keep.old disk.old (λ old t k.
        Accepts (λ file. file.number ≡ inode_at F.VERSION old (drop depth path.now))
        (refusal t k (length lot.now.groups) (form_of F.VERSION) (Trunc (drop depth path.now) len))
        result) }
    // What it answers of any lot, damaged or not.
    ensures fits { IfOk result (FileFits lot.now len) }
    ensures ready { IfShown K.View lot.now keep.old disk.old (λ old.
        IfOk result (λ file. FileIs (form_of F.VERSION) lot.now old len file.number file.node)) }
    ensures room { IfShown K.View lot.now keep.old disk.old (λ old. OnOk result (CanCount old)) }
    // Damage that it names is there.
    ensures damaged { NamesBroken K.View (form_of F.VERSION) lot.now keep.old disk.old result }
    // Names alone refuse a path before any call of the disk.
    ensures paths { RefusesPaths F.VERSION (drop depth path.now ∷ []) result }
    ensures untouched { UntouchedAll F.VERSION (drop depth path.now ∷ [])
        keep.old pool.old disk.old keep.new pool.new disk.new }
    // What stays as it was.
    ensures looked { Looked D.Disk K.View lot.now keep.old disk.old keep.new disk.new }
    // Which refusals there are, and when a fault comes.
    ensures set { IfErr result (IsOneOf trunc_refusals change_rules) }
    ensures failed { Caused D.state Fault result disk.old disk.new }
{
    let file = match reach_file::<D, K, F>(keep, disk, lot, path, depth, len) {
        Ok(file) => file,
        Err(refusal) => return Err(refusal),
    };
    let need = size_need(file.size, len);
    match check_quota::<D, K, P, F>(keep, pool, disk, lot, &need) {
        Ok(()) => Ok(file),
        Err(refusal) => Err(refusal),
    }
}

/// Puts the bytes into a file, as one more accepted operation.
#[tactic(auto, using(ice_map::proofs::SizeLaws::size_laws))]
fn put_bytes<D: Disk, K: Keep<D>, P: Pool<D, K>, F: Form>(
    keep: &mut K,
    pool: &mut P,
    disk: &mut D,
    lot: &Lot,
    file: &FileAt,
    at: u32,
    bytes: &[u8],
) -> Result<(), OpFault>
    // The lot lies on the disk and the keep has room.
    requires sited { is_sited lot.now (D.state disk.old).size ≡ true }
    requires fits { FileFits lot.now at file.now }
    requires room { 49 ≤ K.room keep.old }
    requires few { length bytes.now ≤ most_bytes }
    requires short { at + length bytes.now ≤ (form_of F.VERSION).longest_file }
    // Where it takes the operation, the lot recovers the changed tree; the disk alone may fail.
    ensures set { (mode k : ℕ) (t : Tree) (p : List (List ℕ))
        → AsShown K.View lot.now keep.old disk.old keep.new disk.new (λ old new.
        TakesAt (form_of F.VERSION) mode lot.now old t k p (Write p at bytes.now) file.now.number file.now.node
        → OnOk result (MapRecovers (form_of F.VERSION) mode lot.now new
        (next_tree (Write p at bytes.now) t) (k + 1))) }
    ensures sound { (mode k : ℕ) (t : Tree) (p : List (List ℕ))
        → IfShown K.View lot.now keep.old disk.old (λ old.
        TakesAt (form_of F.VERSION) mode lot.now old t k p (Write p at bytes.now) file.now.number file.now.node
        → FailsByDisk result) }
    // Damage that it names is there.
    ensures broken { IfShown K.View lot.now keep.old disk.old (λ old.
        BytesFit (form_of F.VERSION) lot.now old at (at + length bytes.now) file.now.number file.now.node
        → IfErr result (IsBrokenBy (form_of F.VERSION) lot.now old)) }
    // What it spends of the keep, and what stays as it was.
    ensures counted { OnOk result (K.held keep.new sub_address ≡ true) }
    ensures spent { Spent D.Disk K.View lot.now 49 keep.old disk.old keep.new disk.new }
    // Which refusals there are, and when a fault comes.
    ensures faults { IfErr result (IsNamedIn change_rules) }
    ensures failed { Caused D.state FaultDisk result disk.old disk.new }
{
    write_in::<D, K, P, F>(keep, pool, disk, lot, file.number, &file.node, at, bytes)?;
    count_up(keep, disk, lot)?;
    Ok(())
}

/// Cuts a file, as one more accepted operation.
#[tactic(auto, using(ice_map::proofs::SizeLaws::size_laws))]
fn put_cut<D: Disk, K: Keep<D>, P: Pool<D, K>, F: Form>(
    keep: &mut K,
    pool: &mut P,
    disk: &mut D,
    lot: &Lot,
    file: &FileAt,
    len: u32,
) -> Result<(), OpFault>
    // The lot lies on the disk and the keep has room.
    requires sited { is_sited lot.now (D.state disk.old).size ≡ true }
    requires fits { FileFits lot.now len file.now }
    requires room { 73 ≤ K.room keep.old }
    // Where it takes the operation, the lot recovers the changed tree; the disk alone may fail.
    ensures set { (mode k : ℕ) (t : Tree) (p : List (List ℕ))
        → AsShown K.View lot.now keep.old disk.old keep.new disk.new (λ old new.
        TakesAt (form_of F.VERSION) mode lot.now old t k p (Trunc p len) file.now.number file.now.node
        → OnOk result (MapRecovers (form_of F.VERSION) mode lot.now new (next_tree (Trunc p len) t)
        (k + 1))) }
    ensures sound { (mode k : ℕ) (t : Tree) (p : List (List ℕ))
        → IfShown K.View lot.now keep.old disk.old (λ old.
        TakesAt (form_of F.VERSION) mode lot.now old t k p (Trunc p len) file.now.number file.now.node
        → FailsByDisk result) }
    // Damage that it names is there.
    ensures broken { IfShown K.View lot.now keep.old disk.old (λ old.
        FileIs (form_of F.VERSION) lot.now old len file.now.number file.now.node → CanCount old
        → IfErr result (IsBrokenBy (form_of F.VERSION) lot.now old)) }
    // What it spends of the keep, and what stays as it was.
    ensures counted { OnOk result (K.held keep.new sub_address ≡ true) }
    ensures spent { Spent D.Disk K.View lot.now 73 keep.old disk.old keep.new disk.new }
    // Which refusals there are, and when a fault comes.
    ensures faults { IfErr result (IsNamedIn change_rules) }
    ensures failed { Caused D.state FaultDisk result disk.old disk.new }
{
    cut_in::<D, K, P, F>(keep, pool, disk, lot, file.number, &file.node, len)?;
    count_up(keep, disk, lot)?;
    Ok(())
}

/// Puts the bytes into a file from `at` on: they replace those that stand there, and those past the end extend it.
/// `depth` is the number of names of the cube's path. After a fault or damage the keep may hold part of the change.
pub fn write<D: Disk, K: Keep<D>, P: Pool<D, K>, F: Form>(
    keep: &mut K,
    pool: &mut P,
    disk: &mut D,
    lot: &Lot,
    path: &Path,
    depth: usize,
    at: u32,
    bytes: &[u8],
) -> Result<(), Refusal>
    // The lot lies on the disk and has a group, the path begins with the cube's names, and the keep has room.
    requires sited { is_sited lot.now (D.state disk.old).size ≡ true }
    requires some { 1 ≤ length lot.now.groups }
    requires depth { depth ≤ length path.now }
    requires room { 96 ≤ K.room keep.old }
    requires few { length bytes.now ≤ most_bytes }
    // Over a lot that recovers a tree, the answer and the change are the model's.
    ensures answers { AnswersAs K.View F.VERSION lot.now keep.old disk.old
        (Write (drop depth path.now) at bytes.now) (meant_plain result) }
    ensures changed { ChangesAs K.View F.VERSION lot.now keep.old disk.old keep.new disk.new
        (Write (drop depth path.now) at bytes.now) result }
    // Damage that it names is there.
    ensures damaged { NamesBroken K.View (form_of F.VERSION) lot.now keep.old disk.old result }
    // Names alone refuse a path before any call of the disk.
    ensures paths { RefusesPaths F.VERSION (drop depth path.now ∷ []) result }
    ensures untouched { UntouchedAll F.VERSION (drop depth path.now ∷ [])
        keep.old pool.old disk.old keep.new pool.new disk.new }
    // What it spends of the keep, and what stays as it was.
    ensures counted { OnOk result (K.held keep.new sub_address ≡ true) }
    ensures refused { LooksIfRefused D.Disk K.View lot.now keep.old disk.old keep.new disk.new result }
    ensures spent { Spent D.Disk K.View lot.now 96 keep.old disk.old keep.new disk.new }
    // Which refusals there are, and when a fault comes.
    ensures set { IfErr result (IsOneOf write_refusals change_rules) }
    ensures failed { Caused D.state Fault result disk.old disk.new }
{
    let file = match check_write::<D, K, P, F>(keep, pool, disk, lot, path, depth, at, bytes) {
        Ok(file) => file,
        Err(refusal) => return Err(refusal),
    };
    match put_bytes::<D, K, P, F>(keep, pool, disk, lot, &file, at, bytes) {
        Ok(()) => Ok(()),
        Err(fault) => Err(refusal_of(fault)),
    }
}

/// Keeps the first `len` bytes of a file. `depth` is the number of names of the cube's path. After a fault or damage the keep may hold part of the change.
pub fn trunc<D: Disk, K: Keep<D>, P: Pool<D, K>, F: Form>(
    keep: &mut K,
    pool: &mut P,
    disk: &mut D,
    lot: &Lot,
    path: &Path,
    depth: usize,
    len: u32,
) -> Result<(), Refusal>
    // The lot lies on the disk and has a group, the path begins with the cube's names, and the keep has room.
    requires sited { is_sited lot.now (D.state disk.old).size ≡ true }
    requires some { 1 ≤ length lot.now.groups }
    requires depth { depth ≤ length path.now }
    requires room { 96 ≤ K.room keep.old }
    // Over a lot that recovers a tree, the answer and the change are the model's.
    ensures answers { AnswersAs K.View F.VERSION lot.now keep.old disk.old
        (Trunc (drop depth path.now) len) (meant_plain result) }
    ensures changed { ChangesAs K.View F.VERSION lot.now keep.old disk.old keep.new disk.new
        (Trunc (drop depth path.now) len) result }
    // Damage that it names is there.
    ensures damaged { NamesBroken K.View (form_of F.VERSION) lot.now keep.old disk.old result }
    // Names alone refuse a path before any call of the disk.
    ensures paths { RefusesPaths F.VERSION (drop depth path.now ∷ []) result }
    ensures untouched { UntouchedAll F.VERSION (drop depth path.now ∷ [])
        keep.old pool.old disk.old keep.new pool.new disk.new }
    // What it spends of the keep, and what stays as it was.
    ensures counted { OnOk result (K.held keep.new sub_address ≡ true) }
    ensures refused { LooksIfRefused D.Disk K.View lot.now keep.old disk.old keep.new disk.new result }
    ensures spent { Spent D.Disk K.View lot.now 96 keep.old disk.old keep.new disk.new }
    // Which refusals there are, and when a fault comes.
    ensures set { IfErr result (IsOneOf trunc_refusals change_rules) }
    ensures failed { Caused D.state Fault result disk.old disk.new }
{
    let file = match check_trunc::<D, K, P, F>(keep, pool, disk, lot, path, depth, len) {
        Ok(file) => file,
        Err(refusal) => return Err(refusal),
    };
    match put_cut::<D, K, P, F>(keep, pool, disk, lot, &file, len) {
        Ok(()) => Ok(()),
        Err(fault) => Err(refusal_of(fault)),
    }
}
