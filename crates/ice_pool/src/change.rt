//! Takes and gives, alike for blocks and inodes.
ghost use Rattle.std.specs.Prelude.{is_ok, ◌≡◌, ◌≢◌, ◌≤◌, ◌<◌, ◌+◌, ◌-◌, ◌*◌, ◌/◌, ◌%◌, ◌^◌, true, false, cond, [], ◌∷◌, OnOk, OnErr, IfOk, IfErr, IsErrOf, length};
ghost use Rattle.ice_base.specs.Disk.{Rose, Caused};
ghost use Rattle.ice_base.specs.Fields.{WordSet};
ghost use Rattle.ice_base.specs.Lots.{is_sited, sub_address};
ghost use Rattle.ice_base.specs.Spare.{lacks, FitsAny};
ghost use Rattle.ice_base.specs.Views.{Looked, Spent, Puts, AsShown, IfShown};
ghost use Rattle.ice_base.specs.Faults.{IsDiskFault, IsGiveFault};
ghost use Rattle.ice_base.specs.Used.{used, bits_of, bitmap_of, AllUsed, is_data, Reserved, count_place, counted};
ghost use Rattle.ice_base.specs.Pools.{Took, Gave, PutsFor, PutsInOne};
ghost use Rattle.ice_base.specs.declared.fault.Rule.{Rule};
ghost use Rattle.ice_base.specs.declared.fault.OpFault.TheVariants.{Disk as FaultDisk, Damaged};
ghost use Rattle.ice_base.specs.declared.fault.Rule.TheVariants.{Counts, Bitmap};
ghost use Rattle.ice_pool.specs.Either.{absent, IsTakeFault, IsAbsentFault, IsCountsFault};

use crate::find::find;
use ice_base::{
    BLOCKS_AT, Block, Disk, Keep, Lot, NODES_AT, OpFault, Rule, SUB, View, fetch, read_u32, store,
    write_u32,
};
use ice_bits::{bit, clear, set};

/// The address of the bitmap block of its group.
fn bitmap_at(inodes: bool, i: u32) -> u32
    requires { i < bits_of inodes * 64 }
    ensures { result ≡ bitmap_of inodes i }
{
    if inodes {
        256 * (i / 64)
    } else {
        256 * (i / 256)
    }
}

/// Which one of its group it is.
fn place_in(inodes: bool, i: u32) -> u32
    ensures { result ≡ i % bits_of inodes }
{
    if inodes { i % 64 } else { i % 256 }
}

#[tactic(auto, using(ice_base::proofs::LotLaws::address_laws))]
/// The sub-super block with its count moved by one, in `sub`.
pub fn move_count<D: Disk, V: View<D>>(
    view: &mut V,
    disk: &mut D,
    lot: &Lot,
    inodes: bool,
    up: bool,
    sub: &mut Block,
) -> Result<(), OpFault>
    requires { is_sited lot.now (D.state disk.old).size ≡ true }
    ensures counts { IfShown V.View lot.now view.old disk.old (λ old.
        OnOk result (WordSet (old sub_address) (count_place inodes) (cond up (counted inodes old + 1) (counted inodes old - 1)) sub.new)) }
    ensures end { IsErrOf result (Damaged Counts) → IfShown V.View lot.now view.old disk.old (λ old.
        counted inodes old ≡ cond up (2 ^ 32 - 1) 0) }
    ensures looked { Looked D.Disk V.View lot.now view.old disk.old view.new disk.new }
    ensures faults { IfErr result IsCountsFault }
    ensures failed { Caused D.state FaultDisk result disk.old disk.new }
{
    fetch(view, disk, lot, SUB, sub)?;
    let at = if inodes { NODES_AT } else { BLOCKS_AT };
    let before = read_u32(sub, at);
    let after = if up {
        before.checked_add(1)
    } else {
        before.checked_sub(1)
    };
    match after {
        None => Err(OpFault::Damaged(Rule::Counts)),
        Some(after) => {
            write_u32(sub, at, after);
            Ok(())
        }
    }
}

/// Puts a bitmap block, and then the sub-super block.
#[tactic(auto, using(ice_base::proofs::SpareLaws::spare_laws, ice_base::proofs::LotLaws::address_laws))]
fn put_both<D: Disk, K: Keep<D>>(
    keep: &mut K,
    disk: &mut D,
    lot: &Lot,
    at: u32,
    bitmap: &Block,
    sub: &Block,
) -> Result<(), OpFault>
    requires sited { is_sited lot.now (D.state disk.old).size ≡ true }
    requires address { at < 256 * length lot.now.groups }
    requires apart { at ≢ sub_address }
    requires room { lacks (K.held keep.old) (sub_address ∷ at ∷ []) ≤ K.room keep.old }
    ensures bitmap { AsShown K.View lot.now keep.old disk.old keep.new disk.new (λ old new.
        OnOk result (new at ≡ bitmap.now)) }
    ensures sub { AsShown K.View lot.now keep.old disk.old keep.new disk.new (λ old new.
        OnOk result (new sub_address ≡ sub.now)) }
    ensures puts { Puts K.View lot.now (is_ok result) (sub_address ∷ at ∷ []) keep.old disk.old keep.new disk.new }
    ensures spent { Spent D.Disk K.View lot.now 2 keep.old disk.old keep.new disk.new }
    ensures fault { IfErr result IsDiskFault }
    ensures failed { OnErr result (Rose (D.state disk.old).faults (D.state disk.new).faults) }
{
    store(keep, disk, lot, at, bitmap)?;
    store(keep, disk, lot, SUB, sub)?;
    Ok(())
}

/// Takes the least free inode, or block.
#[tactic(auto, using(ice_base::proofs::SpareLaws::spare_laws, ice_base::proofs::LotLaws::sited_laws, ice_base::proofs::UsedLaws::group_laws, crate::proofs::EitherLaws::either_laws))]
pub fn take<D: Disk, K: Keep<D>>(
    keep: &mut K,
    disk: &mut D,
    lot: &Lot,
    inodes: bool,
) -> Result<u32, OpFault>
    requires sited { is_sited lot.now (D.state disk.old).size ≡ true }
    requires room { FitsAny (K.held keep.old) (K.room keep.old) lot.now }
    ensures took { AsShown K.View lot.now keep.old disk.old keep.new disk.new (λ old new.
        IfOk result (Took inodes old new)) }
    ensures number { IfOk result (λ i. i < bits_of inodes * length lot.now.groups) }
    ensures data { inodes ≡ false → IfOk result (λ a. is_data lot.now a ≡ true) }
    ensures puts { IfOk result (λ i. PutsFor K.View lot.now true inodes i keep.old disk.old keep.new disk.new) }
    ensures broken { OnErr result (PutsInOne K.View lot.now keep.old disk.old keep.new disk.new) }
    ensures spent { Spent D.Disk K.View lot.now 2 keep.old disk.old keep.new disk.new }
    ensures exact { IfShown K.View lot.now keep.old disk.old (λ old.
        AllUsed inodes lot.now old → IfErr result (IsAbsentFault inodes)) }
    ensures none { IsErrOf result (absent inodes)
        → IfShown K.View lot.now keep.old disk.old (λ old. AllUsed inodes lot.now old) }
    ensures full { IsErrOf result (Damaged Counts) → IfShown K.View lot.now keep.old disk.old (λ old.
        counted inodes old ≡ 2 ^ 32 - 1) }
    ensures unreserved { IsErrOf result (Damaged Bitmap)
        → IfShown K.View lot.now keep.old disk.old (λ old. ¬ Reserved lot.now old) }
    ensures looked { IsErrOf result (absent inodes)
        → Looked D.Disk K.View lot.now keep.old disk.old keep.new disk.new }
    ensures looked_damaged { (rule : Rule) → IsErrOf result (Damaged rule)
        → Looked D.Disk K.View lot.now keep.old disk.old keep.new disk.new }
    ensures faults { IfErr result (IsTakeFault inodes) }
    ensures failed { Caused D.state FaultDisk result disk.old disk.new }
{
    let mut bitmap = [0; 1024];
    let mut sub = [0; 1024];
    // This call tells the prover that the lot is one, with at most 64 groups.
    let _ = lot.len();
    let taken = find(keep, disk, lot, inodes, &mut bitmap)?;
    move_count(keep, disk, lot, inodes, true, &mut sub)?;
    set(&mut bitmap, inodes, place_in(inodes, taken));
    put_both(keep, disk, lot, bitmap_at(inodes, taken), &bitmap, &sub)?;
    Ok(taken)
}

/// Gives a used inode, or block, back.
#[tactic(auto, using(ice_base::proofs::SpareLaws::spare_laws, ice_base::proofs::LotLaws::address_laws, ice_base::proofs::LotLaws::sited_laws, ice_base::proofs::UsedLaws::group_laws, crate::proofs::EitherLaws::either_laws))]
pub fn give<D: Disk, K: Keep<D>>(
    keep: &mut K,
    disk: &mut D,
    lot: &Lot,
    inodes: bool,
    given: u32,
) -> Result<(), OpFault>
    requires sited { is_sited lot.now (D.state disk.old).size ≡ true }
    requires number { given < bits_of inodes * length lot.now.groups }
    requires room { lacks (K.held keep.old) (sub_address ∷ bitmap_of inodes given ∷ []) ≤ K.room keep.old }
    ensures gave { AsShown K.View lot.now keep.old disk.old keep.new disk.new (λ old new.
        OnOk result (Gave inodes old new given)) }
    ensures puts { PutsFor K.View lot.now (is_ok result) inodes given keep.old disk.old keep.new disk.new }
    ensures spent { Spent D.Disk K.View lot.now 2 keep.old disk.old keep.new disk.new }
    ensures zero { IsErrOf result (Damaged Counts)
        → IfShown K.View lot.now keep.old disk.old (λ old. counted inodes old ≡ 0) }
    ensures unused { IsErrOf result (Damaged Bitmap) → IfShown K.View lot.now keep.old disk.old (λ old.
        used inodes old given ≡ false) }
    ensures looked_damaged { (rule : Rule) → IsErrOf result (Damaged rule)
        → Looked D.Disk K.View lot.now keep.old disk.old keep.new disk.new }
    ensures faults { IfErr result IsGiveFault }
    ensures failed { Caused D.state FaultDisk result disk.old disk.new }
{
    let mut bitmap = [0; 1024];
    let mut sub = [0; 1024];
    // This call tells the prover that the lot is one, with at most 64 groups.
    let _ = lot.len();
    let at = bitmap_at(inodes, given);
    let place = place_in(inodes, given);
    fetch(keep, disk, lot, at, &mut bitmap)?;
    if !bit(&bitmap, inodes, place) {
        return Err(OpFault::Damaged(Rule::Bitmap));
    }
    move_count(keep, disk, lot, inodes, false, &mut sub)?;
    clear(&mut bitmap, inodes, place);
    put_both(keep, disk, lot, at, &bitmap, &sub)?;
    Ok(())
}
