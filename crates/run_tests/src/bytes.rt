//! The bytes of the format, by hand.
ghost use Rattle.std.specs.Prelude.{◌≡◌, ◌≤◌, ◌<◌, ◌^◌};

use ice_base::{Block, Rule, Status};
use ice_layout::{
    LayoutFault, SubSuper, Super, fresh_block, fresh_group, read_sub, read_super, write_sub,
    write_super,
};

const FRESH_SUB: [u8; 32] = [
    0x49, 0x63, 0x65, 0x43, 1, 0, 0, 0, 0, 0, 0, 0, 0, 0, 0, 0, 0, 0, 0, 0, 0, 0, 0, 0, 0, 0, 0, 0,
    1, 0, 0, 0,
];

const SUB_AFTER_MKDIR: [u8; 16] = [1, 0, 0, 0, 0, 0, 0, 0, 1, 0, 0, 0, 2, 0, 0, 0];

fn sub_of(done: u64, blocks: u32, nodes: u32) -> SubSuper
    ensures { result ≡ record { version = 1; slot = 0; mode = 0; done = done; blocks = blocks; nodes = nodes } }
{
    SubSuper {
        version: 1,
        slot: 0,
        mode: 0,
        done,
        blocks,
        nodes,
    }
}

fn part(block: &Block, start: usize, end: usize) -> &[u8]
    requires { (start ≤ end) × (end ≤ 1024) }
{
    &block[start..end]
}

/// The sub-super block of slot 0 with these counts.
fn sub_block(done: u64, blocks: u32, nodes: u32) -> Block
    requires { done < 2 ^ 63 }
{
    let mut block = [7; 1024];
    write_sub(&sub_of(done, blocks, nodes), &mut block);
    block
}

#[test]
fn sub_super_blocks_have_their_bytes(rt: HostRuntime) {
    let fresh = sub_block(0, 0, 1);
    assert_eq!(rt; part(&fresh, 0, 32), FRESH_SUB.as_slice());
    assert!(rt; part(&fresh, 32, 1024) == [0; 992].as_slice());
    let later = sub_block(1, 1, 2);
    assert_eq!(rt; part(&later, 16, 32), SUB_AFTER_MKDIR.as_slice());
    assert!(rt; read_sub(&later, 0) == Ok(sub_of(1, 1, 2)));
}

/// Bytes of a sub-super block, each with the rule that it breaks where it is changed.
const RULES: [(usize, Rule); 7] = [
    (0, Rule::Magic),
    (3, Rule::Magic),
    (4, Rule::Version),
    (7, Rule::Version),
    (8, Rule::Slot),
    (9, Rule::Mode),
    (23, Rule::Done),
];

/// The rule that a sub-super block breaks in which this byte is changed.
fn broken_at(at: usize) -> Option<Rule> {
    let mut block = sub_block(5, 6, 7);
    if at < 1024 {
        block[at] = 0x80;
    }
    read_sub(&block, 0).err()
}

#[test]
fn a_changed_byte_breaks_its_rule_first(rt: HostRuntime) {
    for (at, rule) in &RULES {
        assert!(rt; broken_at(*at) == Some(*rule), "byte {at}");
    }
    assert!(rt; read_sub(&[0xff; 1024], 0) == Err(Rule::Magic));
}

/// Places of a group, the first or a later one, with the bytes 0, 1 and 32 of their blocks and how many bytes aren't 0.
const GROUPS: [(bool, u32, [u8; 3], usize); 10] = [
    (true, 0, [0xff, 1, 1], 3),
    (false, 0, [0xff, 1, 0], 2),
    (true, 1, [2, 0, 0], 1),
    (true, 2, [0; 3], 0),
    (true, 3, [0; 3], 0),
    (true, 4, [0; 3], 0),
    (true, 5, [0; 3], 0),
    (true, 6, [0; 3], 0),
    (true, 7, [0; 3], 0),
    (true, 8, [0; 3], 0),
];

/// The bytes 0, 1 and 32 of a fresh group's block, and how many of its bytes aren't 0.
fn group_bytes(first: bool, place: u32) -> ([u8; 3], usize) {
    let mut block = [7; 1024];
    if place < 9 {
        fresh_group(first, place, &mut block);
    }
    let count = block.iter().filter(|byte| **byte != 0).count();
    ([block[0], block[1], block[32]], count)
}

#[test]
fn fresh_groups_have_their_bytes(rt: HostRuntime) {
    for (first, place, bytes, count) in &GROUPS {
        let found = group_bytes(*first, *place);
        assert!(rt; found == (*bytes, *count), "place {place}");
    }
}

const GEOMETRY: Super = Super {
    slots: 16,
    groups: 1024,
};

/// Its superblock.
fn super_block() -> Block {
    let mut block = [7; 1024];
    write_super(&GEOMETRY, &mut block);
    block
}

#[test]
fn superblocks_have_their_bytes(rt: HostRuntime) {
    let block = super_block();
    assert_eq!(rt;
        block[8..20],
        [16, 0, 0, 0, 0, 4, 0, 0, 0x20, 0x10, 4, 0][..]
    );
    assert!(rt; read_super(&block) == Ok(GEOMETRY));
    let mut block = [7; 1024];
    fresh_block(&GEOMETRY, 1, &mut block);
    assert!(rt; block == [0; 1024]);
    assert_eq!(rt; Status::Small as u8, 8);
}

/// Bytes of a superblock, each with the fault where it is 0xff.
const FAULTS: [(usize, LayoutFault); 7] = [
    (0, LayoutFault::Magic),
    (4, LayoutFault::Version),
    (8, LayoutFault::Slots),
    (12, LayoutFault::Groups),
    (16, LayoutFault::Total),
    (20, LayoutFault::Zero),
    (1023, LayoutFault::Zero),
];

/// The fault of a superblock in which this byte is changed.
fn fault_at(at: usize) -> Option<LayoutFault> {
    let mut block = super_block();
    if at < 1024 {
        block[at] = 0xff;
    }
    read_super(&block).err()
}

#[test]
fn a_changed_byte_of_a_superblock_has_its_fault(rt: HostRuntime) {
    for (at, fault) in &FAULTS {
        assert!(rt; fault_at(*at) == Some(*fault), "byte {at}");
    }
}
