//! The bitmaps and the counts of a lot, compared with the marks of a walk.
ghost use Rattle.std.specs.Prelude.{◌≡◌, ◌≢◌, ◌≤◌, ◌<◌, ◌+◌, ◌*◌, ℕ, true, false, OnOk, IfErr, length};
ghost use Rattle.ice_base.specs.Bits.{bit_of, count_below};
ghost use Rattle.ice_base.specs.Disk.{Caused};
ghost use Rattle.ice_base.specs.Lots.{is_sited};
ghost use Rattle.ice_base.specs.Used.{bit_index, bits_of};
ghost use Rattle.ice_base.specs.Views.{Looked};
ghost use Rattle.ice_reads.specs.Tables.{Map};
ghost use Rattle.ice_check.specs.Marks.{marked, BitsAgree, BitsDisagree, GroupAgrees, GroupDisagrees};
ghost use Rattle.ice_check.specs.Shown.{Shows, IsCheckFault, IfBitmap};
ghost use Rattle.ice_check.specs.declared.fault.CheckFault.TheVariants.{Disk as FaultDisk};

use crate::fault::CheckFault;
use crate::reads::read_block;
use ice_base::{Block, Disk, Lot, Rule, View};
use ice_bits::{bit, bits};

/// Whether the places of a group that hold no data are all marked used.
fn reserved_set(block: &Block) -> bool
    ensures yes { result ≡ true → (i : ℕ) → i < 9 → bit_of block.now i ≡ true }
    ensures no { result ≡ false → (i : ℕ) × (i < 9) × (bit_of block.now i ≡ false) }
{
    for i in 0..9u32 {
        if !bit(block, false, i) {
            return false;
        }
    }
    true
}

/// Whether the bits of a group from one on are the marks of the numbers from `start` on.
fn bits_agree(block: &Block, inodes: bool, from: u32, marks: &[bool], start: usize) -> bool
    requires { start + bits_of inodes ≤ length marks.now }
    ensures yes { result ≡ true → (i : ℕ) → from ≤ i → i < bits_of inodes
        → bit_of block.now (bit_index inodes i) ≡ marked marks.now (start + i) }
    ensures no { result ≡ false → (i : ℕ) × (from ≤ i) × (i < bits_of inodes)
        × (bit_of block.now (bit_index inodes i) ≢ marked marks.now (start + i)) }
{
    for i in from..bits(inodes) {
        if bit(block, inodes, i) != marks[start + i as usize] {
            return false;
        }
    }
    true
}

/// Whether the bitmap block of a group agrees with the marks.
fn group_agrees(block: &Block, group: usize, inodes: &[bool], blocks: &[bool]) -> bool
    requires group { group < 64 }
    requires inodes { 64 * group + 64 ≤ length inodes.now }
    requires blocks { 256 * group + 256 ≤ length blocks.now }
    ensures yes { result ≡ true → GroupAgrees block.now group inodes.now blocks.now }
    ensures no { result ≡ false → GroupDisagrees block.now group inodes.now blocks.now }
{
    if !reserved_set(block) {
        return false;
    }
    if !bits_agree(block, false, 9, blocks, 256 * group) {
        return false;
    }
    bits_agree(block, true, 0, inodes, 64 * group)
}

/// Compares the bitmap blocks of all groups with the marks.
#[tactic(auto, using(ice_base::proofs::LotLaws::address_laws, ice_base::proofs::LotLaws::sited_laws))]
pub fn compare_bits<D: Disk, V: View<D>>(
    view: &mut V,
    disk: &mut D,
    lot: &Lot,
    inodes: &[bool],
    blocks: &[bool],
) -> Result<(), CheckFault>
    requires sited { is_sited lot.now (D.state disk.old).size ≡ true }
    requires inodes { 64 * length lot.now.groups ≤ length inodes.now }
    requires blocks { 256 * length lot.now.groups ≤ length blocks.now }
    ensures agrees { (m : Map) → Shows V.View lot.now view.old disk.old m
        → OnOk result (BitsAgree lot.now m inodes.now blocks.now) }
    ensures disagrees { (m : Map) → Shows V.View lot.now view.old disk.old m
        → IfErr result (IfBitmap (BitsDisagree lot.now m inodes.now blocks.now)) }
    ensures faults { IfErr result IsCheckFault }
    ensures looked { Looked D.Disk V.View lot.now view.old disk.old view.new disk.new }
    ensures failed { Caused D.state FaultDisk result disk.old disk.new }
{
    let mut block = [0; 1024];
    for group in 0..lot.len() as u32 {
        read_block(view, disk, lot, 256 * group, &mut block)?;
        if !group_agrees(&block, group as usize, inodes, blocks) {
            return Err(CheckFault::Damaged(Rule::Bitmap));
        }
    }
    Ok(())
}
