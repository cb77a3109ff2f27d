//! The owner table by worked bytes.
use crate::tables::{At, table};
use ice_base::Block;
use ice_owner::{OwnerFault, Owners};
use std::process::Abort;
use std::test::Fail;

/// The slots that are not free: those below a number.
fn first_slots(count: usize) -> [bool; 16] {
    let mut live = [false; 16];
    for slot in 0..16 {
        live[slot] = slot < count;
    }
    live
}

fn read(blocks: &[Block; 4], groups: u16, live: usize) -> Option<Owners> {
    if groups < 1 || groups > 1024 {
        return None;
    }
    Owners::read(blocks, groups, &first_slots(live))
}

/// For so many groups and slots that are not free: the first two groups, a place of a block, where slot 0 has a group in block 3 alone,
/// and whether that is a table.
const TABLES: [(&str, u16, usize, [u8; 8], (usize, usize), bool); 13] = [
    ("no cube, no group", 4, 0, [0; 8], (0, 8), true),
    (
        "two groups of slot 0, in order",
        4,
        1,
        [1, 0, 0, 0, 1, 1, 0, 0],
        (0, 8),
        true,
    ),
    (
        "the other way round",
        4,
        1,
        [1, 1, 0, 0, 1, 0, 0, 0],
        (0, 8),
        true,
    ),
    (
        "what is written as zero is not looked at",
        4,
        1,
        [1, 0, 7, 9, 1, 1, 3, 0],
        (0, 8),
        true,
    ),
    (
        "the ordinal of a group without a slot isn't either",
        4,
        1,
        [1, 0, 0, 0, 0, 5, 0, 0],
        (0, 8),
        true,
    ),
    (
        "an ordinal twice",
        4,
        1,
        [1, 0, 0, 0, 1, 0, 0, 0],
        (0, 8),
        false,
    ),
    (
        "an ordinal left out",
        4,
        1,
        [1, 0, 0, 0, 1, 2, 0, 0],
        (0, 8),
        false,
    ),
    (
        "no ordinal 0",
        4,
        1,
        [1, 1, 0, 0, 0, 0, 0, 0],
        (0, 8),
        false,
    ),
    (
        "a group of a free slot",
        4,
        1,
        [1, 0, 0, 0, 2, 0, 0, 0],
        (0, 8),
        false,
    ),
    (
        "a group of slot 16",
        4,
        16,
        [17, 0, 0, 0, 0, 0, 0, 0],
        (0, 8),
        false,
    ),
    (
        "a cube without a group",
        4,
        2,
        [1, 0, 0, 0, 1, 1, 0, 0],
        (0, 8),
        false,
    ),
    (
        "a group past the last one",
        1,
        1,
        [1, 0, 0, 0, 1, 1, 0, 0],
        (0, 8),
        false,
    ),
    (
        "the last of 1,024 groups",
        1024,
        1,
        [1, 0, 0, 0, 1, 1, 0, 0],
        (3, 1020),
        false,
    ),
];

/// Whether these are a table: eight bytes at the begin of the blocks, and one at this place of this block.
fn are_read(groups: u16, live: usize, first: &[u8; 8], (block, place): (usize, usize)) -> bool {
    let blocks = table(&[
        At {
            block: 0,
            place: 0,
            bytes: first,
        },
        At {
            block,
            place,
            bytes: &[if block == 3 { 1 } else { 0 }],
        },
    ]);
    read(&blocks, groups, live).is_some()
}

#[test]
fn each_fault_of_the_owner_table_is_refused(rt: HostRuntime) {
    for (name, groups, live, first, at, want) in &TABLES {
        let found = are_read(*groups, *live, first, *at);
        assert!(rt; found == *want, "{name}");
    }
}

/// The lots of the slots, by the group of their first ordinal and their number of groups.
fn lot(owners: &Owners, slot: u8) -> (u8, Option<u32>) {
    if slot >= 16 {
        return (0, None);
    }
    let lot = owners.lot_of(slot, 32 + 256 * 16);
    (lot.len(), lot.place(0))
}

/// Reserves groups for a slot below 16. What the call promises stays behind.
fn reserve(rt: &impl Abort, owners: &mut Owners, slot: u8, count: u32) -> Result<(), OwnerFault> {
    assert!(rt; slot < 16);
    owners.reserve(slot, count)
}

fn release(rt: &impl Abort, owners: &mut Owners, slot: u8) {
    assert!(rt; slot < 16);
    owners.release(slot);
}

fn free(owners: &Owners) -> u32 {
    owners.free()
}

/// Gives each slot 64 groups, which are all.
fn give_all(rt: &impl Abort, owners: &mut Owners) {
    for slot in 0..16_u8 {
        let given = reserve(rt, owners, slot, 64);
        let place = Some(4128 + 256 * 64 * slot as u32);
        assert_eq!(rt; (given, lot(owners, slot)), (Ok(()), (64, place)));
    }
    assert_eq!(rt; (free(owners), owners.groups()), (0, 1024));
    assert_eq!(rt; reserve(rt, owners, 3, 1), Err(OwnerFault::CubeFull));
}

/// Takes the groups of slots 2 and 9 back, and gives 65 of them.
fn give_again(rt: &impl Abort, owners: &mut Owners) {
    release(rt, owners, 2);
    release(rt, owners, 9);
    assert_eq!(rt; free(owners), 128);
    let given = [
        reserve(rt, owners, 9, 65),
        reserve(rt, owners, 9, 64),
        reserve(rt, owners, 2, 1),
    ];
    assert_eq!(rt; given, [Err(OwnerFault::CubeFull), Ok(()), Ok(())]);
    let lots = [lot(owners, 9), lot(owners, 2)];
    assert_eq!(rt;
        lots,
        [(64, Some(4128 + 256 * 128)), (1, Some(4128 + 256 * 576))]
    );
    assert_eq!(rt; free(owners), 63);
}

/// A cube of 64 groups gets none, however many are free.
fn refuse_more(rt: &impl Abort, owners: &mut Owners) {
    release(rt, owners, 9);
    release(rt, owners, 3);
    let given = [reserve(rt, owners, 2, 64), reserve(rt, owners, 4, 1)];
    assert_eq!(rt; given, [Err(OwnerFault::CubeFull); 2]);
}

#[test]
fn a_thousand_groups_are_given_and_taken_back(rt: HostRuntime) -> Result<(), Fail> {
    let mut owners = read(&[[0; 1024]; 4], 1024, 0).ok_or("no table")?;
    give_all(&rt, &mut owners);
    give_again(&rt, &mut owners);
    refuse_more(&rt, &mut owners);
    Ok(())
}

#[test]
fn no_more_groups_are_given_than_are_free(rt: HostRuntime) -> Result<(), Fail> {
    let mut small = read(&[[0; 1024]; 4], 3, 0).ok_or("no table")?;
    let given = [
        reserve(&rt, &mut small, 0, 4),
        reserve(&rt, &mut small, 0, 3),
    ];
    assert_eq!(rt;
        (given, free(&small)),
        ([Err(OwnerFault::NoGroups), Ok(())], 0)
    );
    Ok(())
}

/// Slot 0 with the groups 0 and 3, and slot 15 with 1 and 2.
fn worked(rt: &impl Abort) -> Option<Owners> {
    let mut owners = read(&[[0; 1024]; 4], 1024, 0)?;
    let given = [
        reserve(rt, &mut owners, 0, 1),
        reserve(rt, &mut owners, 15, 2),
        reserve(rt, &mut owners, 0, 1),
    ];
    assert_eq!(rt; given, [Ok(()); 3]);
    Some(owners)
}

fn written(owners: &Owners) -> [Block; 4] {
    let mut into = [[0xee; 1024]; 4];
    owners.write(&mut into);
    into
}

fn worked_bytes() -> [Block; 4] {
    table(&[At {
        block: 0,
        place: 0,
        bytes: &[1, 0, 0, 0, 16, 0, 0, 0, 16, 1, 0, 0, 1, 1, 0, 0],
    }])
}

/// The lots of slots 0, 15 and 1 of the table that these blocks are where the first and the last slot are not free.
fn lots_of_ends(blocks: &[Block; 4]) -> Option<[(u8, Option<u32>); 3]> {
    let owners = Owners::read(blocks, 1024, &live_of_ends())?;
    Some([lot(&owners, 0), lot(&owners, 15), lot(&owners, 1)])
}

#[test]
fn what_is_written_are_the_worked_bytes(rt: HostRuntime) -> Result<(), Fail> {
    let owners = worked(&rt).ok_or("no table")?;
    let into = written(&owners);
    assert!(rt; into == worked_bytes());
    assert_eq!(rt;
        lots_of_ends(&into),
        Some([(2, Some(4128)), (2, Some(4384)), (0, None)])
    );
    Ok(())
}

/// The first and the last slot are not free.
fn live_of_ends() -> [bool; 16] {
    let mut live = [false; 16];
    live[0] = true;
    live[15] = true;
    live
}
