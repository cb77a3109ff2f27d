//! Fewer blocks for an inode's map.
ghost use Rattle.std.specs.Prelude.{is_ok, ◌≡◌, ◌≢◌, ◌≤◌, ◌<◌, ◌+◌, ◌*◌, ◌-◌, ◌++◌, ℕ, true, false, List, [], ◌∷◌, OnOk, OnErr, IfOk, IfErr, IsErrOf, length, take, replicate};
ghost use Rattle.ice_base.specs.Disk.{Caused};
ghost use Rattle.ice_base.specs.Lots.{is_sited, sub_address};
ghost use Rattle.ice_base.specs.Spare.{has, bitmaps};
ghost use Rattle.ice_base.specs.Used.{used_block, is_data, counted};
ghost use Rattle.ice_base.specs.Views.{Looked, Spent, Puts, AsShown, IfShown};
ghost use Rattle.ice_base.specs.declared.fault.OpFault.TheVariants.{Disk as FaultDisk, Damaged};
ghost use Rattle.ice_base.specs.declared.fault.Rule.TheVariants.{Counts, Pointer, Bitmap};
ghost use Rattle.ice_map.specs.Faults.{IsCutFault, IsLookFault};
ghost use Rattle.ice_map.specs.Maps.{longest, nth_block, blocks_between, cut_off, cut_room, given_puts, shortened, Marked, Stays, Owns, MapStays, Cut, FreeOrTwice, Misleads};

use crate::codec::Inode;
use crate::maps::checked;
use ice_base::{Block, Disk, Form, Keep, Lot, OpFault, Pool, View, fetch, read_u32};

/// Block `k` of a map whose indirect block is this.
#[tactic(auto, using(crate::proofs::MapLaws::nth_laws))]
fn entry(inode: &Inode, block: &Block, k: u32) -> u32
    requires { k < longest }
    ensures { result ≡ nth_block (λ _. block.now) inode.now k }
{
    if k < 12 {
        inode.direct[k as usize]
    } else {
        read_u32(block, 4 * (k - 12) as usize)
    }
}

/// Gives back the blocks from `rest` to `count` of a map whose indirect block is this.
#[tactic(auto)]
fn give_between<D: Disk, K: Keep<D>, P: Pool<D, K>>(
    keep: &mut K,
    pool: &mut P,
    disk: &mut D,
    lot: &Lot,
    inode: &Inode,
    block: &Block,
    rest: u32,
    count: u32,
) -> Result<(), OpFault>
    // The lot lies on the disk, the keep can hold what is put, and the blocks are of one map.
    requires sited { is_sited lot.now (D.state disk.old).size ≡ true }
    requires order { rest ≤ count }
    requires short { count ≤ longest }
    requires room { cut_room count rest ≤ K.room keep.old }
    // The blocks were marked free, and each is a data place.
    ensures gave { AsShown K.View lot.now keep.old disk.old keep.new disk.new (λ old new.
        OnOk result (Marked lot.now false old new (blocks_between (λ _. block.now) inode.now rest count))) }
    ensures placed { OnOk result ((b : ℕ)
        → has (blocks_between (λ _. block.now) inode.now rest count) b ≡ true → is_data lot.now b ≡ true) }
    // Which blocks it put, and what the keep and the disk spent.
    ensures puts { Puts K.View lot.now (is_ok result) (given_puts (blocks_between (λ _. block.now) inode.now rest count)) keep.old disk.old keep.new disk.new }
    ensures bitmaps { Puts K.View lot.now (is_ok result) (sub_address ∷ bitmaps (length lot.now.groups)) keep.old disk.old keep.new disk.new }
    ensures spent { Spent D.Disk K.View lot.now (2 * (count - rest)) keep.old disk.old keep.new disk.new }
    // Damage that it names is there.
    ensures zero { IsErrOf result (Damaged Counts) → IfShown K.View lot.now keep.old disk.old (λ old.
        counted false old < count - rest) }
    ensures unused { IsErrOf result (Damaged Bitmap) → IfShown K.View lot.now keep.old disk.old (λ old.
        FreeOrTwice old (blocks_between (λ _. block.now) inode.now rest count)) }
    ensures pointer { IsErrOf result (Damaged Pointer) → (k : ℕ) × (rest ≤ k) × (k < count)
        × (is_data lot.now (nth_block (λ _. block.now) inode.now k) ≡ false) }
    // Which refusals there are, and when a fault of the disk comes.
    ensures faults { IfErr result IsCutFault }
    ensures failed { Caused D.state FaultDisk result disk.old disk.new }
{
    for k in rest..count {
        let at = match checked(lot, entry(inode, block, k)) {
            Ok(at) => at,
            Err(fault) => return Err(fault),
        };
        match pool.give_block(keep, disk, lot, at) {
            Ok(()) => {}
            Err(fault) => return Err(fault),
        }
    }
    Ok(())
}

/// Reads the indirect block where a map of `count` blocks has one. Damaged: its address is no data place.
#[tactic(auto, using(ice_base::proofs::UsedLaws::group_laws, ice_base::proofs::LotLaws::address_laws))]
fn read_indirect<D: Disk, V: View<D>>(
    view: &mut V,
    disk: &mut D,
    lot: &Lot,
    inode: &Inode,
    count: u32,
    into: &mut Block,
) -> Result<(), OpFault>
    requires sited { is_sited lot.now (D.state disk.old).size ≡ true }
    // The block that it reads.
    ensures content { IfShown V.View lot.now view.old disk.old (λ old.
        OnOk result (12 < count → into.new ≡ old inode.now.single)) }
    ensures data { OnOk result (12 < count → is_data lot.now inode.now.single ≡ true) }
    // Damage that it names is there.
    ensures pointer { IsErrOf result (Damaged Pointer) → (12 < count) × (is_data lot.now inode.now.single ≡ false) }
    // What stays as it was, and which refusals there are.
    ensures looked { Looked D.Disk V.View lot.now view.old disk.old view.new disk.new }
    ensures faults { IfErr result IsLookFault }
    ensures failed { Caused D.state FaultDisk result disk.old disk.new }
{
    if count <= 12 {
        return Ok(());
    }
    let single = checked(lot, inode.single)?;
    fetch(view, disk, lot, single, into)
}

fn clear_direct(direct: &mut [u32; 12], rest: u32)
    ensures cleared { direct.new ≡ take rest direct.old ++ replicate (12 - rest) 0 }
    ensures long { length direct.old ≡ 12 }
{
    let first = if rest < 12 { rest as usize } else { 12 };
    for k in first..12usize {
        direct[k] = 0;
    }
}

/// Only the first `rest` pointers stay.
#[tactic(auto, using(crate::proofs::CutLaws::shortened_laws))]
fn shorten(inode: &mut Inode, rest: u32)
    ensures shortened { inode.new ≡ shortened inode.old rest }
    ensures long { length inode.old.direct ≡ 12 }
{
    clear_direct(&mut inode.direct, rest);
    if rest <= 12 {
        inode.single = 0;
    }
    inode.double = 0;
}

/// Cuts a map of `count` blocks to its first `rest`. The others are given back, and with the last of its pointers the indirect block.
/// Pointers of the inode that the map doesn't use are 0 afterwards. The inode is the caller's to put.
/// Damaged: a block of the map is no data place, or is not marked used, or the map has it twice, or the count of used blocks is too low.
pub fn cut<D: Disk, K: Keep<D>, P: Pool<D, K>, F: Form>(
    keep: &mut K,
    pool: &mut P,
    disk: &mut D,
    lot: &Lot,
    inode: &mut Inode,
    count: u32,
    rest: u32,
) -> Result<(), OpFault>
    // The lot lies on the disk, the keep can hold what is put, and the blocks are of one map.
    requires sited { is_sited lot.now (D.state disk.old).size ≡ true }
    requires order { rest ≤ count }
    requires short { count ≤ longest }
    requires room { cut_room count rest ≤ K.room keep.old }
    // The map was cut, and what was given back are data places.
    ensures cut { AsShown K.View lot.now keep.old disk.old keep.new disk.new (λ old new.
        OnOk result (Cut lot.now old new inode.old inode.new count rest)) }
    ensures placed { IfShown K.View lot.now keep.old disk.old (λ old.
        OnOk result ((b : ℕ) → has (cut_off old inode.old count rest) b ≡ true
        → is_data lot.now b ≡ true)) }
    // What the inode in hand became.
    ensures fields { OnOk result (inode.new ≡ shortened inode.old rest) }
    ensures kept { OnErr result (inode.new ≡ inode.old) }
    // Which blocks it put, and what the keep and the disk spent.
    ensures puts { IfShown K.View lot.now keep.old disk.old (λ old.
        Puts K.View lot.now (is_ok result) (given_puts (cut_off old inode.old count rest)) keep.old disk.old keep.new disk.new) }
    ensures bitmaps { Puts K.View lot.now (is_ok result) (sub_address ∷ bitmaps (length lot.now.groups)) keep.old disk.old keep.new disk.new }
    ensures spent { Spent D.Disk K.View lot.now (cut_room count rest) keep.old disk.old keep.new disk.new }
    // What stays as it was: each inode, each data block that is marked used, and each map.
    ensures stays { Stays lot.now (K.map keep.old disk.old lot.now) (K.map keep.new disk.new lot.now) [] }
    ensures others { (other : Inode) (n : ℕ) → Owns lot.now (K.map keep.old disk.old lot.now) other n
        → MapStays (K.map keep.old disk.old lot.now) (K.map keep.new disk.new lot.now) other n }
    // Damage that it names is there.
    ensures zero { IsErrOf result (Damaged Counts) → IfShown K.View lot.now keep.old disk.old (λ old.
        counted false old < length (cut_off old inode.old count rest)) }
    ensures unused { IsErrOf result (Damaged Bitmap) → IfShown K.View lot.now keep.old disk.old (λ old.
        FreeOrTwice old (cut_off old inode.old count rest)) }
    ensures single_placed { IsErrOf result (Damaged Bitmap) → 12 < count
        → is_data lot.now inode.old.single ≡ true }
    ensures misled { IsErrOf result (Damaged Pointer) → IfShown K.View lot.now keep.old disk.old (λ old.
        Misleads lot.now old inode.old count) }
    // Which refusals there are, and when a fault of the disk comes.
    ensures faults { IfErr result IsCutFault }
    ensures failed { Caused D.state FaultDisk result disk.old disk.new }
{
    if rest == count {
        shorten(inode, rest);
        return Ok(());
    }
    let mut block = [0; 1024];
    match read_indirect(keep, disk, lot, inode, count, &mut block) {
        Ok(()) => {}
        Err(fault) => return Err(fault),
    }
    match give_between(keep, pool, disk, lot, inode, &block, rest, count) {
        Ok(()) => {}
        Err(fault) => return Err(fault),
    }
    if count <= 12 || rest > 12 {
        shorten(inode, rest);
        return Ok(());
    }
    match pool.give_block(keep, disk, lot, inode.single) {
        Ok(()) => {
            shorten(inode, rest);
            Ok(())
        }
        Err(fault) => Err(fault),
    }
}
