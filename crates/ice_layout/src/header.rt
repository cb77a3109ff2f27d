//! The gate and the header of a cube's journal.
ghost use Rattle.std.specs.Prelude.{length, ◌≡◌, ◌≤◌, ◌<◌, ◌+◌, ◌*◌, ◌==◌, ◌&&◌, ℕ, true, Some, IfSome, IsTrue, ◌↔◌, take, slice_index};
ghost use Rattle.std.specs.List.{list_all};
ghost use Rattle.std.specs.List.Sorted.{IsStrictlyIncreasing};
ghost use Rattle.ice_base.specs.Fields.{word_at, SameBeside};
ghost use Rattle.ice_base.specs.Lots.{LotView, is_address};
ghost use Rattle.ice_layout.specs.Headers.{is_open, is_table, gate_block, slot_magic, header_of, system_header_of, header_in, targets_said, targets_in, all_differ, may_be_address, AreTargets, IsProperHeader, HeaderZeros, HeaderFields, filled};

use crate::sub::byte_if;
use crate::superblock::is_between;
use ice_base::{Block, Lot, read_u32, write_u32};

const MAGIC: u32 = 0x4a65_6349;

const SYSTEM_MAGIC: u32 = 0x5365_6349;

/// What the bodies of a journal stand for: the first `count` targets, all different. Those of a cube's are 1 to 240 addresses of its lot,
/// those of the tables' 1 to 8 blocks of the tables. The rest are 0.
#[derive(Clone, Copy, Debug)]
pub struct Header {
    pub count: u16,
    pub targets: [u32; 240],
}

impl Header {
    fn said(&self) -> &[u32]
        requires { self.now.count ≤ 240 }
        ensures { result.now ≡ targets_said self.now }
    {
        &self.targets[..self.count as usize]
    }
}

/// Writes a gate block: 1 or 0, then zeros.
pub fn write_gate(on: bool, into: &mut Block)
    ensures bytes { into.new ≡ gate_block on }
    ensures reads { is_open into.new ≡ on }
{
    *into = [0; 1024];
    into[0] = byte_if(on, 1);
}

/// Whether a gate block is that of an open gate: its first byte is 1.
#[tactic(auto, unfolding(crate::specs::Headers::is_open))]
pub fn gate_is_on(from: &Block) -> bool
    ensures { result ≡ is_open from.now }
{
    from[0] == 1
}

/// Each number is above the one before it.
fn rises(numbers: &[u32]) -> bool
    ensures { IsTrue result ↔ IsStrictlyIncreasing numbers.now }
{
    for k in 1..numbers.len() {
        if numbers[k - 1] >= numbers[k] {
            return false;
        }
    }
    true
}

fn are_different(targets: &[u32; 240], count: usize) -> bool
    requires { count ≤ 240 }
    ensures { result ≡ all_differ (take count targets.now) }
{
    let mut sorted = *targets;
    let said = &mut sorted[..count];
    said.sort_unstable();
    rises(said)
}

fn are_addresses(header: &Header, lot: &Lot) -> bool
    requires { header.now.count ≤ 240 }
    ensures few { length lot.now.groups ≤ 64 }
    ensures right { result ≡ list_all (is_address lot.now) (targets_said header.now) }
{
    // This call tells the prover that the lot is one, with at most 64 groups.
    let _ = lot.len();
    header
        .said()
        .iter()
        .all(|target| lot.place(*target).is_some())
}

fn are_tables(header: &Header) -> bool
    requires { header.now.count ≤ 240 }
    ensures { result ≡ list_all is_table (targets_said header.now) }
{
    header
        .said()
        .iter()
        .all(|target| 11 <= *target && *target < 19)
}

fn read_targets(from: &Block, count: usize) -> [u32; 240]
    requires { count ≤ 240 }
    ensures { result ≡ filled (targets_in from.now count) }
{
    let mut targets = [0; 240];
    for i in 0..count {
        targets[i] = read_u32(from, 16 + 4 * i);
    }
    targets
}

/// The number of targets and the targets, wherever these lie: None exactly where they are not 1 to `most` different ones.
fn read_counted(from: &Block, most: u32) -> Option<Header>
    requires { most ≤ 240 }
    ensures header { result ≡ header_in most (λ a. true) from.now }
    ensures few { IfSome result (λ header. header.count ≤ 240) }
{
    let count = read_u32(from, 8);
    if !is_between(1, most, count) {
        return None;
    }
    let targets = read_targets(from, count as usize);
    if !are_different(&targets, count as usize) {
        return None;
    }
    Some(Header {
        count: count as u16,
        targets,
    })
}

fn is_of_lot(from: &Block, lot: &Lot) -> bool
    ensures { result ≡ (word_at from.now 0 == slot_magic && slice_index from.now 4 == lot.now.slot) }
{
    read_u32(from, 0) == MAGIC && from[4] == lot.slot()
}

/// Reads the header of a lot's journal, None exactly where it is refused: the first bytes are not `IceJ`, the slot is another one, the
/// number of targets is not 1 to 240, two targets are equal, or one is no address of the lot.
pub fn read_header(from: &Block, lot: &Lot) -> Option<Header>
    ensures header { result ≡ header_of lot.now from.now }
    ensures targets { IfSome result (λ header. AreTargets 240 (is_address lot.now) (targets_said header)) }
    ensures proper { IfSome result (λ header. IsProperHeader 240 may_be_address header) }
{
    if !is_of_lot(from, lot) {
        return None;
    }
    let header = read_counted(from, 240)?;
    if !are_addresses(&header, lot) {
        return None;
    }
    Some(header)
}

/// Reads the header of the tables' journal, None exactly where it is refused: the first bytes are not `IceS`, the number of targets is
/// not 1 to 8, two targets are equal, or one is no block of the tables: 11 to 18.
pub fn read_system_header(from: &Block) -> Option<Header>
    ensures header { result ≡ system_header_of from.now }
    ensures targets { IfSome result (λ header. AreTargets 8 is_table (targets_said header)) }
    ensures proper { IfSome result (λ header. IsProperHeader 8 is_table header) }
{
    if read_u32(from, 0) != SYSTEM_MAGIC {
        return None;
    }
    let header = read_counted(from, 8)?;
    if !are_tables(&header) {
        return None;
    }
    Some(header)
}

fn write_targets(header: &Header, into: &mut Block)
    requires { header.now.count ≤ 240 }
    ensures targets { (i : ℕ) → i < header.now.count
        → word_at into.new (16 + 4 * i) ≡ slice_index header.now.targets i }
    ensures others { SameBeside 16 (4 * header.now.count) into.old into.new }
{
    for i in 0..header.count as usize {
        write_u32(into, 16 + 4 * i, header.targets[i]);
    }
}

fn write_fields(magic: u32, byte: u8, header: &Header, into: &mut Block)
    requires { header.now.count ≤ 240 }
    ensures { HeaderFields magic byte header.now into.new }
{
    *into = [0; 1024];
    write_u32(into, 0, magic);
    into[4] = byte;
    write_u32(into, 8, u32::from(header.count));
    write_targets(header, into);
}

/// Writes the header of a slot's journal: `IceJ`, the slot in the byte at 4, the number of targets in four bytes at 8, the targets in
/// four bytes each from 16 on, and zeros. Each lot of the slot that has the targets reads it back.
pub fn write_header(slot: u8, header: &Header, into: &mut Block)
    requires slot { slot < 16 }
    requires proper { IsProperHeader 240 may_be_address header.now }
    ensures header { (lot : LotView) → lot.slot ≡ slot
        → list_all (is_address lot) (targets_said header.now) ≡ true
        → header_of lot into.new ≡ Some header.now }
    ensures zeros { HeaderZeros 5 header.now.count into.new }
{
    write_fields(MAGIC, slot, header, into);
}

/// Writes the header of the tables' journal: `IceS`, the number of targets in four bytes at 8, the targets in four bytes each from 16 on,
/// and zeros. It is read back.
pub fn write_system_header(header: &Header, into: &mut Block)
    requires proper { IsProperHeader 8 is_table header.now }
    ensures header { system_header_of into.new ≡ Some header.now }
    ensures zeros { HeaderZeros 4 header.now.count into.new }
{
    write_fields(SYSTEM_MAGIC, 0, header, into);
}
