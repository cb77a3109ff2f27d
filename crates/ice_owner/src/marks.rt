//! The places of an owner table by its groups.
ghost use Rattle.std.specs.Prelude.{◌≡◌, ◌≤◌, ◌<◌, ◌+◌, ◌/◌, ◌%◌, ◌==◌, ℕ, length, filter, slice_index};
ghost use Rattle.std.specs.List.{range_with_len};
ghost use Rattle.ice_owner.specs.Places.{IsTaken, AreMarks, mark_byte};

use ice_base::Block;

/// For each group one more than its place, 0 for none.
pub fn marks_of(counts: &[u8; 16], places: &[u16; 1024]) -> [u16; 1024]
    requires small { (k : ℕ) → k < 1024 → IsTaken counts.now k → slice_index places.now k < 1024 }
    requires apart { (k j : ℕ) → k < 1024 → j < 1024 → IsTaken counts.now k → IsTaken counts.now j
        → slice_index places.now k ≡ slice_index places.now j → k ≡ j }
    ensures { AreMarks 1024 counts.now places.now result }
{
    let mut marks = [0; 1024];
    for k in 0..1024 {
        if k % 64 < counts[k / 64] as usize {
            marks[places[k] as usize] = k as u16 + 1;
        }
    }
    marks
}

/// How many of the first groups have no place.
pub fn count_free(marks: &[u16; 1024], groups: u16) -> u32
    requires { groups ≤ 1024 }
    ensures { result ≡ length (filter (λ g. slice_index marks.now g == 0) (range_with_len 0 groups)) }
{
    let mut free: u32 = 0;
    for g in 0..groups {
        if marks[g as usize] == 0 {
            free += 1;
        }
    }
    free
}

/// A byte of the entry of a mark: one more than the slot, the ordinal, and two that are 0.
fn byte_of(mark: u16, k: usize) -> u8
    requires { mark ≤ 1024 }
    ensures { result ≡ mark_byte mark k }
{
    if mark == 0 || k >= 2 {
        return 0;
    }
    let place = mark - 1;
    if k == 0 {
        (place / 64) as u8 + 1
    } else {
        (place % 64) as u8
    }
}

/// The block of the 256 entries from group `first` on.
pub fn entries(marks: &[u16; 1024], first: usize) -> Block
    requires first { first + 256 ≤ 1024 }
    requires small { (g : ℕ) → slice_index marks.now g ≤ 1024 }
    ensures { (k : ℕ) → k < 1024 → slice_index result k ≡ mark_byte (slice_index marks.now (first + k / 4)) (k % 4) }
{
    let mut block = [0; 1024];
    for k in 0..1024 {
        block[k] = byte_of(marks[first + k / 4], k % 4);
    }
    block
}
