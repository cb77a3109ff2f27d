//! Worked bytes: the gate and the header of a lot of one group, and the blocks that it shows then.
ghost use Rattle.std.specs.Prelude.{◌≡◌, true, length};
ghost use Rattle.ice_base.specs.Lots.{is_sited};

use disk_mem::{MemHost, MuteHost};
use ice_base::{Block, BlockFault, Disk, Lot, SUB, View};
use ice_journal::{Effective, JournalFault, area_of};
use ice_layout::{gate_is_on, read_header, write_gate, write_header};
use std::alloc::Global;
use std::process::Abort;
use std::test::Fail;

/// The lot of slot 1 with group 0, in an image of two slots and one group.
#[tactic(auto, unfolding(ice_base::specs::Lots::is_sited, ice_base::specs::Lots::lies_below))]
pub fn lot() -> Lot
    ensures sited { is_sited result 800 ≡ true }
    ensures groups { length result.groups ≡ 1 }
{
    let mut lot = Lot::new(1, 544);
    lot.push(0);
    lot
}

/// A block that begins with these bytes; the others are zeros.
pub fn block(first: &[u8]) -> Block {
    let mut block = [0; 1024];
    for (i, byte) in first.iter().enumerate() {
        if i < 1024 {
            block[i] = *byte;
        }
    }
    block
}

/// The header of slot 1 with the targets 0xFFFFFFFF and 9.
pub const HEADER: [u8; 24] = [
    0x49, 0x63, 0x65, 0x4a, 1, 0, 0, 0, 2, 0, 0, 0, 0, 0, 0, 0, 0xff, 0xff, 0xff, 0xff, 9, 0, 0, 0,
];

/// That header with one byte changed.
fn changed(at: usize, byte: u8) -> Block {
    let mut block = block(&HEADER);
    if at < 1024 {
        block[at] = byte;
    }
    block
}

/// A header of as many targets as there may be, 0 to 239, with another number of them in the bytes at 8.
fn full(count: u8) -> Block {
    let mut block = changed(8, count);
    for i in 0..240_u8 {
        let at = 16 + 4 * i as usize;
        block[at] = i;
        block[at + 1] = 0;
        block[at + 2] = 0;
        block[at + 3] = 0;
    }
    block
}

/// The number and the first three targets that are read.
fn said(bytes: &Block) -> Option<[u32; 4]> {
    let header = read_header(bytes, &lot())?;
    Some([
        u32::from(header.count),
        header.targets[0],
        header.targets[1],
        header.targets[2],
    ])
}

/// A byte of the header that is changed, and what is read then.
const CHANGES: [(&str, usize, u8, Option<[u32; 4]>); 14] = [
    ("two targets", 4, 1, Some([2, SUB, 9, 0])),
    ("a byte that is not looked at", 5, 7, Some([2, SUB, 9, 0])),
    ("nor is this one", 15, 7, Some([2, SUB, 9, 0])),
    (
        "nor what is behind the targets",
        24,
        7,
        Some([2, SUB, 9, 0]),
    ),
    ("one target", 8, 1, Some([1, SUB, 0, 0])),
    ("three targets", 8, 3, Some([3, SUB, 9, 0])),
    ("the last address", 20, 255, Some([2, SUB, 255, 0])),
    ("other bytes in front", 3, 0x4b, None),
    ("another slot", 4, 0, None),
    ("no targets", 8, 0, None),
    ("258 targets", 9, 1, None),
    ("a target twice", 8, 4, None),
    ("a target of the next group", 21, 1, None),
    ("almost the sub-super block", 16, 0xfe, None),
];

#[test]
fn headers_are_refused_for_each_reason(rt: HostRuntime) {
    for (name, at, byte, want) in &CHANGES {
        assert!(rt; said(&changed(*at, *byte)) == *want, "{name}");
    }
    assert!(rt; said(&full(240)) == Some([240, 0, 1, 2]));
    assert!(rt; said(&full(241)).is_none());
}

/// What is written of the header that these bytes say.
fn written_back(bytes: &Block) -> Option<Block> {
    let header = read_header(bytes, &lot())?;
    let mut into = [0xee; 1024];
    write_header(1, &header, &mut into);
    Some(into)
}

/// The gate that is written.
fn gate(on: bool) -> Block {
    let mut gate = [0xee; 1024];
    write_gate(on, &mut gate);
    gate
}

/// The first byte of a gate, and whether it is open then.
const GATES: [(u8, bool); 4] = [(0, false), (1, true), (2, false), (255, false)];

#[test]
fn what_is_read_is_written_back(rt: HostRuntime) {
    assert!(rt; written_back(&changed(24, 7)) == Some(block(&HEADER)));
    assert!(rt; written_back(&changed(5, 7)) == Some(block(&HEADER)));
    assert!(rt; written_back(&full(240)) == Some(full(240)));
    assert!(rt; written_back(&full(241)).is_none());
}

#[test]
fn a_gate_is_open_by_its_first_byte(rt: HostRuntime) {
    assert!(rt; gate(true) == block(&[1]) && gate(false) == block(&[0]));
    for (first, on) in &GATES {
        assert!(rt; gate_is_on(&block(&[*first, 1])) == *on, "{first}");
    }
}

#[test]
fn an_area_has_its_places(rt: HostRuntime) {
    let area = area_of(&lot());
    assert_eq!(rt;
        (area.gate, area.header, area.body, area.slot),
        (289, 290, 291, Some(1))
    );
}

/// What stands at first in a block: its number in two bytes, but for this gate and this header.
fn start(at: u32, gate: u8, header: &Block) -> Block {
    match at {
        289 => block(&[gate, 1]),
        290 => *header,
        _ => block(&[(at % 256) as u8, (at / 256 % 256) as u8]),
    }
}

fn set(rt: &impl Abort, host: &mut MemHost, at: u32, block: &Block) {
    assert!(rt; at < host.blocks() && host.calls() == 0);
    host.set_block(at, block);
}

/// A host of 800 such blocks.
pub fn host(rt: &impl Abort, alloc: Global, gate: u8, header: &Block) -> Result<MemHost, Fail> {
    let mut host = MemHost::new(alloc, 800)?;
    for at in 0..800_u32 {
        set(rt, &mut host, at, &start(at, gate, header));
    }
    Ok(host)
}

/// The number of the block that the view shows at an address.
pub fn seen<D: Disk>(view: &mut Effective, disk: &mut D, at: u32) -> Result<u32, BlockFault> {
    if disk.blocks() != 800 {
        return Err(BlockFault::Range);
    }
    let mut bytes = [0; 1024];
    view.get(disk, &lot(), at, &mut bytes)?;
    Ok(bytes[0] as u32 + 256 * bytes[1] as u32)
}

/// The numbers of the blocks that it shows at the addresses 0xFFFFFFFF, 9 and 10.
pub fn seen_three<D: Disk>(view: &mut Effective, disk: &mut D) -> Result<[u32; 3], BlockFault> {
    Ok([
        seen(view, disk, SUB)?,
        seen(view, disk, 9)?,
        seen(view, disk, 10)?,
    ])
}

/// What the lot's blocks read as.
pub fn read<D: Disk>(disk: &mut D) -> Result<Effective, JournalFault> {
    if disk.blocks() != 800 {
        return Err(JournalFault::Disk);
    }
    Effective::read(disk, &lot())
}

/// Whether the journal is open.
fn pending<D: Disk>(disk: &mut D) -> Result<bool, JournalFault> {
    Ok(read(disk)?.is_pending())
}

/// The good reads, writes and barriers.
pub fn counts(host: &MemHost) -> (u64, u64, u64) {
    (host.reads(), host.writes(), host.barriers())
}

/// A gate, whether the journal is open then and how many blocks that needs, and the numbers that are shown.
const SHOWN: [(u8, bool, u64, [u32; 3]); 3] = [
    (0, false, 1, [288, 553, 554]),
    (1, true, 2, [291, 292, 554]),
    (2, false, 1, [288, 553, 554]),
];

/// Whether a host shows these numbers by so many reads, and refuses an address outside.
fn shows(host: &mut MemHost, pending: bool, reads: u64, want: [u32; 3]) -> Option<bool> {
    let mut view = read(host).ok()?;
    let opened = view.is_pending() == pending && host.reads() == reads;
    let found = seen_three(&mut view, host);
    let past = seen(&mut view, host, 256);
    let now = (reads.saturating_add(3), 0, 0);
    Some(opened && found == Ok(want) && past == Err(BlockFault::Range) && counts(host) == now)
}

#[test]
fn bodies_stand_in_place_of_their_targets(rt: HostRuntime) -> Result<(), Fail> {
    for (gate, pending, reads, want) in &SHOWN {
        let mut host = host(&rt, rt.alloc(), *gate, &block(&HEADER))?;
        let right = shows(&mut host, *pending, *reads, *want);
        assert!(rt; right == Some(true), "gate {gate}");
    }
    Ok(())
}

/// What a read answers where this call fails behind an open gate, and the calls.
fn pending_at(
    rt: &impl Abort,
    alloc: Global,
    failing: u64,
) -> Result<(Result<bool, JournalFault>, u64), Fail> {
    let mut host = host(rt, alloc, 1, &block(&HEADER))?;
    host.fail_at(failing)?;
    let found = pending(&mut host);
    Ok((found, host.calls()))
}

/// What the view shows of the sub-super block, twice, where the first call behind those of the read fails.
fn seen_again(rt: &impl Abort, alloc: Global) -> Result<[Result<u32, BlockFault>; 2], Fail> {
    let mut host = host(rt, alloc, 1, &block(&HEADER))?;
    host.fail_at(2)?;
    let mut view = read(&mut host).ok().ok_or("no view")?;
    Ok([
        seen(&mut view, &mut host, SUB),
        seen(&mut view, &mut host, SUB),
    ])
}

#[test]
fn a_failed_read_is_a_fault_of_the_disk(rt: HostRuntime) -> Result<(), Fail> {
    let first = pending_at(&rt, rt.alloc(), 0)?;
    let second = pending_at(&rt, rt.alloc(), 1)?;
    assert_eq!(rt; first, (Err(JournalFault::Disk), 1));
    assert_eq!(rt; second, (Err(JournalFault::Disk), 2));
    assert_eq!(rt; pending_at(&rt, rt.alloc(), 2)?, (Ok(true), 2));
    let found = seen_again(&rt, rt.alloc())?;
    assert_eq!(rt; found, [Err(BlockFault::Disk), Ok(291)]);
    Ok(())
}

/// What a host with a refused header and this gate reads as, and what one that tells nothing.
fn both(rt: &impl Abort, alloc: Global, gate: u8) -> Result<[Result<bool, JournalFault>; 2], Fail> {
    let mut told = host(rt, alloc, gate, &changed(21, 1))?;
    let mut mute = MuteHost {
        host: host(rt, alloc, gate, &changed(21, 1))?,
    };
    Ok([pending(&mut told), pending(&mut mute)])
}

#[test]
fn a_refused_header_is_looked_at_only_behind_an_open_gate(rt: HostRuntime) -> Result<(), Fail> {
    let closed = both(&rt, rt.alloc(), 0)?;
    let open = both(&rt, rt.alloc(), 1)?;
    let neither = both(&rt, rt.alloc(), 2)?;
    assert_eq!(rt;
        [closed, open, neither],
        [
            [Ok(false); 2],
            [Err(JournalFault::Header); 2],
            [Ok(false); 2]
        ]
    );
    Ok(())
}

/// What a host that tells nothing shows at two addresses, and its calls and writes.
fn mute_shows(
    rt: &impl Abort,
    alloc: Global,
) -> Result<([Result<u32, BlockFault>; 2], u64, u64), Fail> {
    let host = host(rt, alloc, 1, &block(&HEADER))?;
    let mut mute = MuteHost { host };
    let mut view = read(&mut mute).ok().ok_or("no view")?;
    let found = [
        seen(&mut view, &mut mute, 9),
        seen(&mut view, &mut mute, 257),
    ];
    Ok((found, mute.host.calls(), mute.host.writes()))
}

#[test]
fn a_host_that_tells_nothing_shows_its_bodies(rt: HostRuntime) -> Result<(), Fail> {
    let found = mute_shows(&rt, rt.alloc())?;
    assert_eq!(rt; found, ([Ok(292), Err(BlockFault::Range)], 3, 0));
    Ok(())
}
