//! The largest lot: 64 groups with all their inodes in one directory.
ghost use Rattle.std.specs.Prelude.{◌≡◌, ◌<◌, true, length};
ghost use Rattle.ice_base.specs.Lots.{is_sited};

use crate::lots::{SUB, put};
use disk_mem::MemHost;
use ice_base::{Disk, Lot, Rule, write_u32};
use ice_bits::set;
use ice_check::{CheckFault, Summary, check};
use ice_keep::ThroughKeep;
use std::alloc::Global;
use std::process::Abort;
use std::test::Fail;

/// The blocks of an image of one slot and 64 groups.
const BLOCKS: u32 = 16672;

/// The entries of the root.
const ENTRIES: u32 = 4095;

/// The blocks of the root's map.
const COUNT: u32 = 256;

/// The lot of slot 0 with the groups 0 to 63.
pub(crate) fn all_groups() -> Lot
    ensures sited { is_sited result 16672 ≡ true }
    ensures groups { length result.groups ≡ 64 }
{
    let mut lot = Lot::new(0, 288);
    for group in 0..64u16 {
        lot.push(group);
    }
    lot
}

/// The address of data place `n`, counted over all groups.
fn data_place(n: u32) -> u32
    ensures { result < 16384 }
{
    256 * (n / 247 % 64) + 9 + n % 247
}

fn put_bitmaps(rt: &impl Abort, host: &mut MemHost) {
    for group in 0..64u32 {
        let mut bitmap = [0; 1024];
        for place in 0..256u32 {
            if place < 9 || 247 * group + place - 9 <= COUNT {
                set(&mut bitmap, false, place);
            }
        }
        for inode in 0..64u32 {
            set(&mut bitmap, true, inode);
        }
        put(rt, host, 288 + 256 * group, &bitmap);
    }
}

/// Inode 0 is the directory of all the others, which are empty files.
fn put_inodes(rt: &impl Abort, host: &mut MemHost) {
    for group in 0..64u32 {
        for place in 0..8u32 {
            let mut inodes = [0; 1024];
            for index in 0..8usize {
                inodes[128 * index] = 1;
            }
            if group == 0 && place == 0 {
                inodes[0] = 2;
                write_u32(&mut inodes, 4, ENTRIES);
                for n in 0..12u32 {
                    write_u32(&mut inodes, 8 + 4 * n as usize, data_place(n));
                }
                write_u32(&mut inodes, 56, data_place(COUNT));
            }
            put(rt, host, 289 + 256 * group + place, &inodes);
        }
    }
    let mut pointers = [0; 1024];
    for n in 12..COUNT {
        write_u32(&mut pointers, 4 * (n - 12) as usize, data_place(n));
    }
    put(rt, host, 288 + data_place(COUNT), &pointers);
}

/// Entry `k` names inode `k + 1`. Its name are three letters, those of entry `like` where it is entry `twin`.
fn put_entries(rt: &impl Abort, host: &mut MemHost, twin: u32, like: u32) {
    for n in 0..COUNT {
        let mut entries = [0; 1024];
        for index in 0..16u32 {
            let k = 16 * n + index;
            let name = if k == twin { like % 4096 } else { k };
            let at = 64 * index as usize;
            if k < ENTRIES {
                write_u32(&mut entries, at, k + 1);
                entries[at + 4] = 3;
                entries[at + 5] = b'a' + (name / 256 % 16) as u8;
                entries[at + 6] = b'a' + (name / 16 % 16) as u8;
                entries[at + 7] = b'a' + (name % 16) as u8;
            }
        }
        put(rt, host, 288 + data_place(n), &entries);
    }
}

fn largest(rt: &impl Abort, alloc: Global, twin: u32, like: u32) -> Result<MemHost, Fail> {
    let mut host = MemHost::new(alloc, BLOCKS)?;
    let mut sub = [0; 1024];
    write_u32(&mut sub, 0, 0x4365_6349);
    write_u32(&mut sub, 4, 1);
    write_u32(&mut sub, 24, COUNT + 1);
    write_u32(&mut sub, 28, ENTRIES + 1);
    put(rt, &mut host, SUB, &sub);
    put_bitmaps(rt, &mut host);
    put_inodes(rt, &mut host);
    put_entries(rt, &mut host, twin, like);
    Ok(host)
}

#[test]
fn the_largest_lot_is_read_in_a_few_looks_at_each_block(rt: HostRuntime) -> Result<(), Fail> {
    let mut host = largest(&rt, rt.alloc(), 0, 0)?;
    assert!(rt; host.blocks() == BLOCKS);
    let got = check(&mut ThroughKeep::new(), &mut host, &all_groups());
    let want = Summary {
        blocks: 257,
        nodes: 4096,
        done: 0,
    };
    assert_eq!(rt; got, Ok(want));
    assert_eq!(rt; host.reads(), 24_511);
    assert!(rt; host.reads() <= 8 * (257 + 4096 + 64));
    Ok(())
}

#[test]
fn equal_names_far_apart_are_found(rt: HostRuntime) -> Result<(), Fail> {
    for (twin, like) in [(4094u32, 0u32), (4000, 7), (1, 0)] {
        let mut host = largest(&rt, rt.alloc(), twin, like)?;
        assert!(rt; host.blocks() == BLOCKS);
        let got = check(&mut ThroughKeep::new(), &mut host, &all_groups());
        assert_eq!(rt; got, Err(CheckFault::Damaged(Rule::NameTwice)));
        assert!(rt; host.reads() <= 8 * (257 + 4096 + 64));
    }
    Ok(())
}
