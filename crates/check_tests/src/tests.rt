//! The answers of the checker.
use crate::lots::{BITMAP, BLOCKS, Byte, FIRST, GATE, INODES, SUB, chain, change, one_group};
use disk_mem::{MemHost, MuteHost};
use ice_base::{Disk, Rule};
use ice_check::{CheckFault, Summary, check, check_lot};
use ice_keep::ThroughKeep;
use std::process::Abort;
use std::test::Fail;

fn answer(rt: &impl Abort, host: &mut MemHost) -> Result<Summary, CheckFault> {
    assert!(rt; host.blocks() == BLOCKS);
    check(&mut ThroughKeep::new(), host, &one_group())
}

fn sums(blocks: u32, nodes: u32, done: u64) -> Result<Summary, CheckFault> {
    Ok(Summary {
        blocks,
        nodes,
        done,
    })
}

#[test]
fn a_sound_lot_says_its_cost(rt: HostRuntime) -> Result<(), Fail> {
    for names in [0u32, 1, 2, 24] {
        let mut host = chain(&rt, rt.alloc(), names)?;
        let got = answer(&rt, &mut host);
        assert_eq!(rt; got, sums(names, names + 1, u64::from(names)));
        assert!(rt; host.writes() == 0 && host.barriers() == 0);
    }
    Ok(())
}

/// What each of these lots breaks alone. Each is the lot of one empty directory in the root with other bytes.
fn damages() -> [(Rule, &'static [Byte]); 14] {
    [
        (Rule::Magic, &[(SUB, 0, 0)]),
        (Rule::Version, &[(SUB, 4, 9)]),
        (Rule::Slot, &[(SUB, 8, 1)]),
        (Rule::Mode, &[(SUB, 9, 7)]),
        (Rule::Done, &[(SUB, 23, 0x80)]),
        (Rule::Counts, &[(SUB, 24, 2)]),
        (Rule::Kind, &[(INODES, 128, 3)]),
        (Rule::Pointer, &[(INODES, 136, 9)]),
        (
            Rule::BlockTwice,
            &[(INODES, 128, 1), (INODES, 132, 1), (INODES, 136, 9)],
        ),
        (
            Rule::InodeTwice,
            &[(FIRST, 0, 0), (BITMAP, 32, 1), (SUB, 28, 1)],
        ),
        (
            Rule::Name,
            &[(FIRST, 5, b'/'), (BITMAP, 32, 1), (SUB, 28, 1)],
        ),
        (
            Rule::NameTwice,
            &[
                (INODES, 4, 2),
                (INODES, 256, 2),
                (FIRST, 64, 2),
                (FIRST, 68, 1),
                (FIRST, 69, b'a'),
                (BITMAP, 32, 7),
                (SUB, 28, 3),
            ],
        ),
        (Rule::Bitmap, &[(BITMAP, 1, 7)]),
        (Rule::Bitmap, &[(BITMAP, 1, 1)]),
    ]
}

#[test]
fn each_rule_is_named(rt: HostRuntime) -> Result<(), Fail> {
    for (rule, bytes) in damages() {
        let mut host = chain(&rt, rt.alloc(), 1)?;
        change(&rt, &mut host, bytes);
        let got = answer(&rt, &mut host);
        assert_eq!(rt; got, Err(CheckFault::Damaged(rule)));
    }
    let mut host = chain(&rt, rt.alloc(), 25)?;
    let got = answer(&rt, &mut host);
    assert_eq!(rt; got, Err(CheckFault::Damaged(Rule::Depth)));
    Ok(())
}

#[test]
fn the_first_broken_rule_of_the_sub_super_block_is_named(rt: HostRuntime) -> Result<(), Fail> {
    let all: [(Rule, Byte); 6] = [
        (Rule::Magic, (SUB, 0, 0)),
        (Rule::Version, (SUB, 4, 9)),
        (Rule::Slot, (SUB, 8, 1)),
        (Rule::Mode, (SUB, 9, 7)),
        (Rule::Done, (SUB, 23, 0x80)),
        (Rule::Counts, (SUB, 24, 2)),
    ];
    for first in 0..all.len() {
        let mut host = chain(&rt, rt.alloc(), 1)?;
        for (_, byte) in &all[first..] {
            change(&rt, &mut host, &[*byte]);
        }
        let got = answer(&rt, &mut host);
        assert_eq!(rt; got, Err(CheckFault::Damaged(all[first].0)));
    }
    Ok(())
}

/// The header of one target, the root's inode block, whose body says that the root has no entry.
const JOURNAL: [Byte; 9] = [
    (GATE + 1, 0, b'I'),
    (GATE + 1, 1, b'c'),
    (GATE + 1, 2, b'e'),
    (GATE + 1, 3, b'J'),
    (GATE + 1, 8, 1),
    (GATE + 1, 16, 1),
    (GATE + 2, 0, 2),
    // The homes of the bitmap and of the sub-super block are those of an empty root.
    (BITMAP, 1, 1),
    (BITMAP, 32, 1),
];

#[test]
fn a_lot_is_checked_as_its_journal_leaves_it(rt: HostRuntime) -> Result<(), Fail> {
    let damaged = |rule| Err(CheckFault::Damaged(rule));
    let empty: [Byte; 2] = [(SUB, 24, 0), (SUB, 28, 1)];
    // With the gate closed the homes are read: the root has an entry whose block isn't marked. With the gate open the body is.
    // A header of no target is refused, and not looked at where the gate is closed.
    for (gate, count, want) in [
        (0, 1, damaged(Rule::Bitmap)),
        (2, 1, damaged(Rule::Bitmap)),
        (1, 1, sums(0, 1, 1)),
        (1, 0, damaged(Rule::Header)),
        (0, 0, damaged(Rule::Bitmap)),
    ] {
        let mut host = chain(&rt, rt.alloc(), 1)?;
        change(&rt, &mut host, &JOURNAL);
        change(&rt, &mut host, &empty);
        change(&rt, &mut host, &[(GATE, 0, gate), (GATE + 1, 8, count)]);
        assert!(rt; host.blocks() == BLOCKS);
        let got = check_lot(&mut host, &one_group());
        assert_eq!(rt; got, want, "{gate} {count}");
        assert!(rt; host.writes() == 0 && host.barriers() == 0);
    }
    Ok(())
}

#[test]
fn garbage_that_tells_nothing_is_damaged(rt: HostRuntime) -> Result<(), Fail> {
    for fill in [0u8, 1, 2, 0xff] {
        let mut mute = MuteHost {
            host: MemHost::new(rt.alloc(), BLOCKS)?,
        };
        assert!(rt; mute.host.calls() == 0);
        for at in 0..BLOCKS {
            assert!(rt; mute.host.blocks() == BLOCKS && mute.host.calls() == 0);
            mute.host.set_block(at, &[fill; 1024]);
        }
        assert!(rt; mute.blocks() == BLOCKS);
        let got = check(&mut ThroughKeep::new(), &mut mute, &one_group());
        assert_eq!(rt; got, Err(CheckFault::Damaged(Rule::Magic)));
    }
    Ok(())
}
