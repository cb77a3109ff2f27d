//! Write sets: as many blocks as a journal has bodies for, found, replaced, taken out, exchanged and cleared.
use ice_base::{Block, read_u32, write_u32};
use ice_txn::WriteSet;
use std::process::Abort;
use std::test::Fail;

/// A block that says a number.
fn saying(number: u32) -> Block {
    let mut block = [0; 1024];
    write_u32(&mut block, 1020, number);
    block
}

/// What the block of an address says, where the set has one.
fn said(set: &WriteSet, at: u32) -> Option<u32> {
    match set.find(at) {
        Some(block) => Some(read_u32(block, 1020)),
        None => None,
    }
}

/// Puts a block where there is space for a further address, and says whether there was.
fn put(set: &mut WriteSet, at: u32, number: u32) -> bool {
    if set.spare() == 0 {
        return false;
    }
    set.put(at, &saying(number));
    true
}

/// Whether the addresses and numbers of a set, from its first entry on, are these.
fn has_entries(set: &WriteSet, wanted: &[(u32, u32)]) -> bool {
    if set.len() as usize != wanted.len() {
        return false;
    }
    for (i, (at, number)) in wanted.iter().enumerate() {
        if i as u32 >= set.len() || !is_entry(set, i as u32, *at, *number) {
            return false;
        }
    }
    true
}

/// Whether an entry has this address, and its block this number.
fn is_entry(set: &WriteSet, i: u32, at: u32, number: u32) -> bool {
    i < set.len() && set.address(i) == at && read_u32(set.block(i), 1020) == number
}

/// Fills a set to its last space.
fn fill(rt: &impl Abort, set: &mut WriteSet) {
    for i in 0..240 {
        assert!(rt; put(set, 16383 - 7 * i, i), "at {i}");
    }
    assert_eq!(rt; (set.len(), set.spare()), (240, 0));
    assert!(rt; !put(set, 5, 5));
}

fn find_all(rt: &impl Abort, set: &WriteSet) {
    for i in 0..240 {
        let found = (said(set, 16383 - 7 * i), said(set, 16384 - 7 * i));
        assert!(rt; found == (Some(i), None), "at {i}");
    }
}

#[test]
fn a_write_set_has_space_for_240_blocks(rt: HostRuntime) -> Result<(), Fail> {
    let mut set = WriteSet::new(rt.alloc())?;
    fill(&rt, &mut set);
    find_all(&rt, &set);
    set.clear();
    assert_eq!(rt; (set.len(), set.spare(), said(&set, 16383)), (0, 240, None));
    Ok(())
}

const PUTS: [(u32, u32); 5] = [(8, 1), (0xFFFF_FFFF, 2), (11, 3), (8, 4), (12, 5)];

fn put_each(rt: &impl Abort, set: &mut WriteSet) {
    for (at, number) in &PUTS {
        assert!(rt; put(set, *at, *number), "at {at}");
    }
    assert!(rt; has_entries(set, &[(8, 4), (0xFFFF_FFFF, 2), (11, 3), (12, 5)]));
    set.drop_address(0xFFFF_FFFF);
    set.drop_address(9);
    assert!(rt; has_entries(set, &[(8, 4), (11, 3), (12, 5)]));
}

#[test]
fn a_write_set_keeps_one_block_an_address(rt: HostRuntime) -> Result<(), Fail> {
    let mut set = WriteSet::new(rt.alloc())?;
    put_each(&rt, &mut set);
    let mut other = WriteSet::with_space(rt.alloc(), 2)?;
    assert!(rt; put(&mut other, 77, 6));
    set.swap_with(&mut other);
    assert!(rt; has_entries(&set, &[(77, 6)]));
    assert!(rt; has_entries(&other, &[(8, 4), (11, 3), (12, 5)]));
    assert_eq!(rt; (set.spare(), other.spare()), (1, 237));
    Ok(())
}
