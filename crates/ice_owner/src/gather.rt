//! Entries of an owner table, put into the places of their slots.
ghost use Rattle.std.specs.Prelude.{◌≡◌, ◌≢◌, ◌≤◌, ◌<◌, ◌+◌, ◌*◌, ◌/◌, ◌%◌, ℕ, true, false, None, IfSome, max, length, slice_index, slice_set};
ghost use Rattle.ice_tables.specs.Tables.{blocks_from, owner_byte, ordinal_byte};
ghost use Rattle.ice_owner.specs.Owners.{is_live};
ghost use Rattle.ice_owner.specs.Places.{nobody, IsTaken, AreGathered, IsBadEntry};

use ice_base::Block;

/// What stands in a place without a group.
pub const NOBODY: u16 = 0xFFFF;

/// Byte `k` of the entry of group `g`.
fn entry_byte(blocks: &[Block; 4], g: usize, k: usize) -> u8
    requires group { g < 1024 }
    requires byte { k < 4 }
    ensures { result ≡ slice_index (blocks_from 15 blocks.now (15 + g / 256)) (4 * (g % 256) + k) }
{
    blocks[g / 256][4 * (g % 256) + k]
}

/// Gives the group its place, false where another one has it.
fn put(counts: &mut [u8; 16], places: &mut [u16; 1024], slot: usize, ordinal: u8, g: u16) -> bool
    requires slot { slot < 16 }
    requires ordinal { ordinal < 64 }
    ensures taken { result ≡ false → slice_index places.old (64 * slot + ordinal) ≢ nobody }
    ensures free { result ≡ true → slice_index places.old (64 * slot + ordinal) ≡ nobody }
    ensures place { result ≡ true → places.new ≡ slice_set places.old (64 * slot + ordinal) g }
    ensures count { result ≡ true → counts.new
        ≡ slice_set counts.old slot (max (slice_index counts.old slot) (ordinal + 1)) }
{
    let place = 64 * slot + ordinal as usize;
    if places[place] != NOBODY {
        return false;
    }
    places[place] = g;
    if counts[slot] <= ordinal {
        counts[slot] = ordinal + 1;
    }
    true
}

/// Puts the entry of group `g` into its place, false where no table has such an entry beside those of the lesser groups.
fn take_entry(
    blocks: &[Block; 4],
    live: &[bool; 16],
    counts: &mut [u8; 16],
    places: &mut [u16; 1024],
    g: u16,
) -> bool
    requires group { g < 1024 }
    requires gathered { AreGathered (blocks_from 15 blocks.now) live.now g counts.old places.old }
    ensures more { result ≡ true
        → AreGathered (blocks_from 15 blocks.now) live.now (g + 1) counts.new places.new }
    ensures bad { result ≡ false → (s : ℕ) × (owner_byte (blocks_from 15 blocks.now) g ≡ s + 1)
        × IsBadEntry (blocks_from 15 blocks.now) live.now g s }
{
    let owner = entry_byte(blocks, g as usize, 0);
    let ordinal = entry_byte(blocks, g as usize, 1);
    if owner == 0 {
        return true;
    }
    let slot = (owner - 1) as usize;
    if slot >= 16 || !live[slot] || ordinal >= 64 {
        return false;
    }
    put(counts, places, slot, ordinal, g)
}

/// Puts the entries of the groups into their places, false at the first that no table has.
pub fn gather(
    blocks: &[Block; 4],
    live: &[bool; 16],
    groups: u16,
    counts: &mut [u8; 16],
    places: &mut [u16; 1024],
) -> bool
    requires groups { groups ≤ 1024 }
    requires none { AreGathered (blocks_from 15 blocks.now) live.now 0 counts.old places.old }
    ensures all { result ≡ true
        → AreGathered (blocks_from 15 blocks.now) live.now groups counts.new places.new }
    ensures bad { result ≡ false → (g s : ℕ) × (g < groups) × (owner_byte (blocks_from 15 blocks.now) g ≡ s + 1)
        × IsBadEntry (blocks_from 15 blocks.now) live.now g s }
{
    for g in 0..groups {
        if !take_entry(blocks, live, counts, places, g) {
            return false;
        }
    }
    true
}

/// The first entry past the groups that has an owner.
pub fn first_past(blocks: &[Block; 4], groups: u16) -> Option<u16>
    requires { groups ≤ 1024 }
    ensures none { result ≡ None → (g : ℕ) → groups ≤ g → g < 1024
        → owner_byte (blocks_from 15 blocks.now) g ≡ 0 }
    ensures past { IfSome result (λ g. (groups ≤ g) × (g < 1024)
        × (owner_byte (blocks_from 15 blocks.now) g ≢ 0)) }
{
    for g in groups..1024 {
        if entry_byte(blocks, g as usize, 0) != 0 {
            return Some(g);
        }
    }
    None
}

/// The first place below a count that has no group.
pub fn first_gap(counts: &[u8; 16], places: &[u16; 1024]) -> Option<u16>
    ensures none { result ≡ None → (k : ℕ) → k < 1024 → IsTaken counts.now k → slice_index places.now k ≢ nobody }
    ensures gap { IfSome result (λ k. (k < 1024) × IsTaken counts.now k × (slice_index places.now k ≡ nobody)) }
{
    for k in 0..1024 {
        let count = u16::from(counts[k as usize / 64]);
        if k % 64 < count && places[k as usize] == NOBODY {
            return Some(k);
        }
    }
    None
}

/// The first slot that is not free and has no group.
pub fn first_bare(live: &[bool; 16], counts: &[u8; 16]) -> Option<u8>
    ensures none { result ≡ None → (s : ℕ) → is_live live.now s ≡ true → 0 < slice_index counts.now s }
    ensures bare { IfSome result (λ s. (is_live live.now s ≡ true) × (slice_index counts.now s ≡ 0)) }
{
    for s in 0..16 {
        if live[s as usize] && counts[s as usize] == 0 {
            return Some(s);
        }
    }
    None
}
