//! Looks at bitmaps.
ghost use Rattle.std.specs.Prelude.{◌≡◌, ◌≤◌, ◌<◌, ◌+◌, ◌*◌, ◌/◌, ◌%◌, true, false, IfOk, IfErr, IsErrOf, OnErr, length};
ghost use Rattle.ice_base.specs.Disk.{Caused};
ghost use Rattle.ice_base.specs.Lots.{is_sited};
ghost use Rattle.ice_base.specs.Views.{Looked, IfShown};
ghost use Rattle.ice_base.specs.Bits.{IsLeast};
ghost use Rattle.ice_base.specs.Faults.{IsDiskFault};
ghost use Rattle.ice_base.specs.Used.{used, bits_of, bitmap_of, AllUsed, free_count, is_data, Reserved};
ghost use Rattle.ice_base.specs.declared.fault.OpFault.{OpFault};
ghost use Rattle.ice_base.specs.declared.fault.OpFault.TheVariants.{Disk as FaultDisk, Damaged};
ghost use Rattle.ice_base.specs.declared.fault.Rule.TheVariants.{Counts, Bitmap};
ghost use Rattle.ice_pool.specs.Either.{absent, IsTakeFault, IsAbsentFault};

use ice_base::{Block, Disk, Lot, OpFault, Rule, View, fetch};
use ice_bits::{bits, count, first_clear};

/// The number of inode `i`, or of block `i`, of a group.
fn number(inodes: bool, ordinal: u32, i: u32) -> u32
    requires ordinal { ordinal < 64 }
    requires small { i < bits_of inodes }
    ensures { result ≡ bits_of inodes * ordinal + i }
{
    if inodes {
        64 * ordinal + i
    } else {
        256 * ordinal + i
    }
}

/// The refusal where none is free.
fn refusal(inodes: bool) -> OpFault
    ensures { result ≡ absent inodes }
{
    if inodes {
        OpFault::NoNodes
    } else {
        OpFault::NoSpace
    }
}

/// Finds the least free inode, or block; the bitmap block of its group is then in `block`.
#[tactic(auto, using(ice_base::proofs::LotLaws::address_laws, ice_base::proofs::LotLaws::sited_laws, ice_base::proofs::UsedLaws::group_laws, crate::proofs::EitherLaws::either_laws))]
pub fn find<D: Disk, V: View<D>>(
    view: &mut V,
    disk: &mut D,
    lot: &Lot,
    inodes: bool,
    block: &mut Block,
) -> Result<u32, OpFault>
    requires { is_sited lot.now (D.state disk.old).size ≡ true }
    ensures number { IfOk result (λ i. i < bits_of inodes * length lot.now.groups) }
    ensures data { inodes ≡ false → IfOk result (λ a. is_data lot.now a ≡ true) }
    ensures least { IfShown V.View lot.now view.old disk.old (λ old.
        IfOk result (IsLeast (used inodes old))) }
    ensures block { IfShown V.View lot.now view.old disk.old (λ old.
        IfOk result (λ i. block.new ≡ old (bitmap_of inodes i))) }
    ensures exact { IfShown V.View lot.now view.old disk.old (λ old.
        AllUsed inodes lot.now old → IfErr result (IsAbsentFault inodes)) }
    ensures none { IsErrOf result (absent inodes)
        → IfShown V.View lot.now view.old disk.old (λ old. AllUsed inodes lot.now old) }
    ensures unreserved { IsErrOf result (Damaged Bitmap)
        → IfShown V.View lot.now view.old disk.old (λ old. ¬ Reserved lot.now old) }
    ensures no_counts { ¬ IsErrOf result (Damaged Counts) }
    ensures looked { Looked D.Disk V.View lot.now view.old disk.old view.new disk.new }
    ensures faults { IfErr result (IsTakeFault inodes) }
    ensures failed { Caused D.state FaultDisk result disk.old disk.new }
{
    for ordinal in 0..lot.len() as u32 {
        fetch(view, disk, lot, 256 * ordinal, block)?;
        if let Some(i) = first_clear(block, inodes) {
            if !inodes && i < 9 {
                return Err(OpFault::Damaged(Rule::Bitmap));
            }
            return Ok(number(inodes, ordinal, i));
        }
    }
    Err(refusal(inodes))
}

/// Counts the free inodes, or blocks.
#[tactic(auto, using(ice_base::proofs::LotLaws::address_laws, ice_base::proofs::LotLaws::sited_laws, crate::proofs::EitherLaws::free_laws))]
pub fn free<D: Disk, V: View<D>>(
    view: &mut V,
    disk: &mut D,
    lot: &Lot,
    inodes: bool,
) -> Result<u32, OpFault>
    requires { is_sited lot.now (D.state disk.old).size ≡ true }
    ensures count { IfShown V.View lot.now view.old disk.old (λ old.
        IfOk result (λ n. n ≡ free_count inodes lot.now old)) }
    ensures looked { Looked D.Disk V.View lot.now view.old disk.old view.new disk.new }
    ensures faults { IfErr result IsDiskFault }
    ensures failed { Caused D.state FaultDisk result disk.old disk.new }
{
    let mut block = [0; 1024];
    let mut free: u32 = 0;
    for ordinal in 0..lot.len() as u32 {
        fetch(view, disk, lot, 256 * ordinal, &mut block)?;
        free += bits(inodes) - count(&block, inodes);
    }
    Ok(free)
}
