//! What no clause says: that calls succeed, and the worked bytes of crashes.
use disk_mem::{MemHost, MuteHost};
use ice_base::{Disk, Host, give_all};
use std::alloc::Global;
use std::process::Abort;
use std::test::Fail;

#[derive(Clone, Copy, Debug, PartialEq, Eq)]
enum Call {
    Read(u32),
    Write(u32, u8),
    Barrier,
    Take,
    Give,
}

// Makes a call and says whether it succeeded. A take is of 8 bytes at most, a give of 2.
fn make<H: Host>(rt: &impl Abort, host: &mut H, call: Call) -> bool {
    match call {
        Call::Read(at) => {
            assert!(rt; at < host.blocks());
            host.read(at, &mut [0; 1024]).is_ok()
        }
        Call::Write(at, byte) => {
            assert!(rt; at < host.blocks());
            host.write(at, &[byte; 1024]).is_ok()
        }
        Call::Barrier => host.barrier().is_ok(),
        Call::Take => host.take(&mut [0; 8]).is_ok(),
        Call::Give => host.give(b"xy").is_ok(),
    }
}

// Makes calls that all succeed.
fn make_all<H: Host>(rt: &impl Abort, host: &mut H, calls: &[Call]) {
    for call in calls {
        assert!(rt; make(rt, host, *call), "{call:?}");
    }
}

fn preset(rt: &impl Abort, host: &mut MemHost, at: u32, byte: u8) {
    assert!(rt; at < host.blocks());
    assert_eq!(rt; host.calls(), 0);
    host.set_block(at, &[byte; 1024]);
}

// A block of the crash at a moment.
fn crash_block(
    rt: &impl Abort,
    alloc: Global,
    host: &MemHost,
    moment: u64,
    fill: u64,
    at: u32,
) -> Result<[u8; 1024], Fail> {
    assert!(rt; moment <= host.calls());
    let crashed = host.crashed(alloc, moment, fill)?;
    assert_eq!(rt; crashed.calls(), 0);
    assert!(rt; at < crashed.blocks());
    Ok(*crashed.block(at))
}

// Block 1 is 5s from the start. Block 0 becomes 7s; a barrier; block 0 becomes 8s; block 1 becomes 6s.
fn short_run(rt: &impl Abort, alloc: Global) -> Result<MemHost, Fail> {
    let mut host = MemHost::new(alloc, 2)?;
    preset(rt, &mut host, 1, 5);
    let calls = [
        Call::Write(0, 7),
        Call::Barrier,
        Call::Write(0, 8),
        Call::Write(1, 6),
    ];
    make_all(rt, &mut host, &calls);
    Ok(host)
}

#[test]
fn each_fill_at_each_moment(rt: HostRuntime) -> Result<(), Fail> {
    let host = short_run(&rt, rt.alloc())?;
    // moment, block, and the byte for the fills 0 to 3
    let table = [
        (0u64, 0u32, [0u8, 0, 0, 0]),
        (0, 1, [5, 5, 5, 5]),
        (1, 0, [0, 7, 0, 0xFF]),
        (1, 1, [5, 5, 5, 5]),
        (2, 0, [7, 7, 7, 7]),
        (2, 1, [5, 5, 5, 5]),
        (3, 0, [7, 8, 0, 0xFF]),
        (3, 1, [5, 5, 5, 5]),
        (4, 0, [7, 8, 0, 0xFF]),
        (4, 1, [5, 6, 0, 0xFF]),
    ];
    for (moment, at, bytes) in table {
        for fill in 0..4 {
            let block = crash_block(&rt, rt.alloc(), &host, moment, fill as u64, at)?;
            for byte in block {
                assert_eq!(rt; byte, bytes[fill], "moment {moment} block {at} fill {fill}");
            }
        }
    }
    Ok(())
}

#[test]
fn other_fills_write_a_pattern(rt: HostRuntime) -> Result<(), Fail> {
    let host = short_run(&rt, rt.alloc())?;
    // moment, fill, block, byte, and what stands there
    let table = [
        (1u64, 4u64, 0u32, 0usize, 124u8),
        (1, 4, 0, 10, 254),
        (1, 4, 0, 11, 11),
        (1, 4, 0, 1023, 111),
        (1, 4, 1, 11, 5),
        (2, 4, 0, 11, 7),
        (4, 4, 1, 0, 131),
        (4, 4, 1, 1023, 118),
        (4, 5, 1, 1, 175),
        (4, u64::MAX, 0, 0, 225),
    ];
    for (moment, fill, at, j, byte) in table {
        let block = crash_block(&rt, rt.alloc(), &host, moment, fill, at)?;
        assert!(rt; j < 1024);
        assert_eq!(rt;
            block[j],
            byte,
            "moment {moment} fill {fill} block {at} byte {j}"
        );
    }
    Ok(())
}

fn fail_at_all(host: &mut MemHost, calls: &[u64]) -> Result<(), Fail> {
    for call in calls {
        host.fail_at(*call)?;
    }
    Ok(())
}

#[test]
fn calls_fail_by_number(rt: HostRuntime) -> Result<(), Fail> {
    let mut host = MemHost::new(rt.alloc(), 1)?;
    host.set_script(b"abcdefgh")?;
    fail_at_all(&mut host, &[0, 2, 4, 6, 8])?;
    let calls = [
        Call::Read(0),
        Call::Write(0, 2),
        Call::Barrier,
        Call::Take,
        Call::Give,
    ];
    for call in calls {
        for good in [false, true] {
            assert_eq!(rt; make(&rt, &mut host, call), good, "{call:?}");
        }
    }
    assert_eq!(rt; host.output(), b"xy".as_slice());
    assert_eq!(rt;
        (host.calls(), host.reads(), host.writes(), host.barriers()),
        (10, 1, 1, 1)
    );
    // A failed write leaves the block loose, and as it was. A failed barrier settles nothing.
    for (moment, fill, byte) in [
        (2, 3, 0),
        (3, 1, 0),
        (3, 3, 0xFF),
        (5, 0, 0),
        (5, 1, 2),
        (6, 0, 2),
        (6, 3, 2),
    ] {
        assert_eq!(rt;
            crash_block(&rt, rt.alloc(), &host, moment, fill, 0)?[0],
            byte,
            "moment {moment} fill {fill}"
        );
    }
    Ok(())
}

#[test]
fn pieces_of_six_bytes(rt: HostRuntime) -> Result<(), Fail> {
    let mut host = MemHost::new(rt.alloc(), 0)?;
    host.reserve(4, 16)?;
    host.set_script(b"0123456789")?;
    host.set_piece(6);
    let mut piece = [0; 16];
    for (n, first) in [(6, b'0'), (4, b'6'), (0, b'6')] {
        assert_eq!(rt; host.take(&mut piece)?, n);
        assert_eq!(rt; piece[0], first);
    }
    give_all(&mut host, b"sixteen letters.")?;
    // the bytes given by the first so many calls
    for (moment, given) in [(0u64, 0usize), (3, 0), (4, 6), (5, 12), (6, 16)] {
        assert!(rt; moment <= host.calls());
        assert_eq!(rt; host.output_at(moment).len(), given, "at {moment}");
    }
    assert_eq!(rt; host.output(), b"sixteen letters.".as_slice());
    Ok(())
}

#[test]
fn a_mute_host_works_the_same(rt: HostRuntime) -> Result<(), Fail> {
    let mut host = MemHost::new(rt.alloc(), 1)?;
    preset(&rt, &mut host, 0, 0xAA);
    fail_at_all(&mut host, &[1])?;
    let mut mute = MuteHost { host };
    let mut block = [0; 1024];
    assert!(rt; mute.blocks() > 0);
    mute.read(0, &mut block)?;
    assert_eq!(rt; block[9], 0xAA);
    assert!(rt; !make(&rt, &mut mute, Call::Write(0, 1)));
    make_all(
        &rt,
        &mut mute,
        &[Call::Write(0, 2), Call::Barrier, Call::Take, Call::Give],
    );
    assert_eq!(rt; mute.host.output(), b"xy".as_slice());
    assert!(rt; mute.host.blocks() > 0);
    assert_eq!(rt; mute.host.block(0)[0], 2);
    Ok(())
}
