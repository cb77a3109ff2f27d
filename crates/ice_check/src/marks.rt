//! Marks of what a walk has come to.
ghost use Rattle.std.specs.Prelude.{◌≡◌, ◌≤◌, ◌<◌, [], ◌∷◌, ℕ, true, false, length};
ghost use Rattle.ice_base.specs.Bits.{count_below};
ghost use Rattle.ice_base.specs.Spare.{has};
ghost use Rattle.ice_map.specs.Maps.{longest, uses, blocks_of, indirect_of};
ghost use Rattle.ice_check.specs.Marks.{marked, GotMarks, MarkedTwice, Unmarked};

use crate::inodes::pointer;
use ice_base::Block;
use ice_map::Inode;

/// Marks of which none is given.
pub fn unmarked<const N: usize>() -> [bool; N]
    ensures blank { Unmarked result }
    ensures long { length result ≡ N }
{
    [false; N]
}

/// Gives a number its mark, or says that it has one.
#[tactic(auto, using(crate::proofs::MarkLaws::marked_laws))]
pub fn mark(marks: &mut [bool], at: usize) -> bool
    requires { at < length marks.old }
    ensures wide { length marks.new ≡ length marks.old }
    ensures new { result ≡ true → GotMarks marks.old marks.new (at ∷ []) }
    ensures twice { result ≡ false → marked marks.old at ≡ true }
{
    if marks[at] {
        return false;
    }
    marks[at] = true;
    true
}

fn mark_indirect(inode: &Inode, count: u32, blocks: &mut [bool]) -> bool
    requires { (b : ℕ) → has (indirect_of inode.now count) b ≡ true → b < length blocks.old }
    ensures wide { length blocks.new ≡ length blocks.old }
    ensures all { result ≡ true → GotMarks blocks.old blocks.new (indirect_of inode.now count) }
    ensures twice { result ≡ false → MarkedTwice blocks.old (indirect_of inode.now count) }
{
    if count <= 12 {
        return true;
    }
    mark(blocks, inode.single as usize)
}

fn mark_each(inode: &Inode, pointers: &Block, count: u32, blocks: &mut [bool]) -> bool
    requires short { count ≤ longest }
    requires below { (b : ℕ) → has (blocks_of (λ _. pointers.now) inode.now count) b ≡ true → b < length blocks.old }
    ensures wide { length blocks.new ≡ length blocks.old }
    ensures all { result ≡ true → GotMarks blocks.old blocks.new (blocks_of (λ _. pointers.now) inode.now count) }
    ensures twice { result ≡ false → MarkedTwice blocks.old (blocks_of (λ _. pointers.now) inode.now count) }
{
    for n in 0..count {
        let at = pointer(inode, pointers, n) as usize;
        if !mark(blocks, at) {
            return false;
        }
    }
    true
}

/// Gives each block that a map of `count` blocks uses its mark. False: one has a mark already, or stands twice in the map.
pub fn mark_blocks(inode: &Inode, pointers: &Block, count: u32, blocks: &mut [bool]) -> bool
    requires short { count ≤ longest }
    requires below { (b : ℕ) → has (uses (λ _. pointers.now) inode.now count) b ≡ true → b < length blocks.old }
    ensures wide { length blocks.new ≡ length blocks.old }
    ensures all { result ≡ true → GotMarks blocks.old blocks.new (uses (λ _. pointers.now) inode.now count) }
    ensures twice { result ≡ false → MarkedTwice blocks.old (uses (λ _. pointers.now) inode.now count) }
{
    if !mark_indirect(inode, count, blocks) {
        return false;
    }
    mark_each(inode, pointers, count, blocks)
}

/// How many of the first numbers have a mark.
#[tactic(auto, using(ice_base::proofs::CountLaws::count_laws))]
pub fn count_marks(marks: &[bool], first: usize) -> u32
    requires within { first ≤ length marks.now }
    requires few { first ≤ 16384 }
    ensures { result ≡ count_below (marked marks.now) first }
{
    let mut count: u32 = 0;
    for k in 0..first {
        if marks[k] {
            count += 1;
        }
    }
    count
}
