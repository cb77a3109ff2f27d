//! A cube of two groups in memory.
ghost use Rattle.std.specs.Prelude.{◌≡◌, true};
ghost use Rattle.ice_base.specs.Lots.{is_sited};

use disk_mem::MemHost;
use fresh_lots::{BLOCKS, two_groups};
use ice_base::{Disk, Lot, Rule};
use ice_cube::{Cube, CubeFault, MakeFault};
use std::alloc::Global;
use std::process::Abort;
use std::test::Fail;
use tree_spec::Refusal;

/// What making a cube of two groups calls: sub-super block, gate, nine blocks of each group, a barrier.
const MAKE: u64 = 21;

/// The count of a cube that is made.
fn make<D: Disk>(rt: &impl Abort, alloc: Global, disk: &mut D, lot: &Lot) -> Result<u64, MakeFault>
    requires { is_sited lot.now 800 ≡ true }
{
    assert!(rt; disk.blocks() == BLOCKS);
    let cube = Cube::make(alloc, disk, lot)?;
    Ok(cube.done())
}

/// The count that a mount finds, what a sync and then an unmount answer.
fn session<D: Disk>(
    rt: &impl Abort,
    alloc: Global,
    disk: &mut D,
    lot: &Lot,
) -> Result<(u64, Result<u64, Refusal>, Result<u64, Refusal>), CubeFault>
    requires { is_sited lot.now 800 ≡ true }
{
    assert!(rt; disk.blocks() == BLOCKS);
    let mut cube = Cube::mount(alloc, disk, lot)?;
    let done = cube.done();
    assert!(rt; !cube.is_stopped() && disk.blocks() == BLOCKS);
    let synced = cube.sync(disk);
    assert!(rt; disk.blocks() == BLOCKS);
    let unmounted = cube.unmount(disk);
    Ok((done, synced, unmounted))
}

/// What `make` answers of the lot, which has two groups. What it promises stays behind.
fn made(rt: &impl Abort, alloc: Global, host: &mut MemHost) -> Result<u64, MakeFault> {
    make(rt, alloc, host, &two_groups())
}

/// What `session` answers of it, and the good writes that it made.
fn played(
    rt: &impl Abort,
    alloc: Global,
    host: &mut MemHost,
) -> (
    Result<(u64, Result<u64, Refusal>, Result<u64, Refusal>), CubeFault>,
    u64,
) {
    let writes = host.writes();
    let found = session(rt, alloc, host, &two_groups());
    (found, host.writes().saturating_sub(writes))
}

/// A made cube is there, and what a crash then leaves: the bytes of a lost block would be 255.
fn make_and_crash(rt: &impl Abort, alloc: Global, host: &mut MemHost) -> Result<MemHost, Fail> {
    let count = made(rt, alloc, host);
    let calls = [host.calls(), host.reads(), host.writes(), host.barriers()];
    assert_eq!(rt; (count, calls), (Ok(0), [MAKE, 0, 20, 1]));
    if host.calls() < MAKE {
        return Err(Fail::new("too few calls"));
    }
    Ok(host.crashed(alloc, MAKE, 3)?)
}

#[test]
fn a_made_cube_is_mounted_again(rt: HostRuntime) -> Result<(), Fail> {
    let mut host = MemHost::new(rt.alloc(), BLOCKS)?;
    let mut left = make_and_crash(&rt, rt.alloc(), &mut host)?;
    // A session finds no accepted command, and writes nothing.
    let empty = (Ok((0, Ok(0), Ok(0))), 0);
    assert!(rt; played(&rt, rt.alloc(), &mut host) == empty);
    assert!(rt; played(&rt, rt.alloc(), &mut left) == empty);
    Ok(())
}

/// What `make` answers where this call fails, and the calls.
fn made_at(
    rt: &impl Abort,
    alloc: Global,
    call: u64,
) -> Result<(Result<u64, MakeFault>, u64), Fail> {
    let mut host = MemHost::new(alloc, BLOCKS)?;
    host.fail_at(call)?;
    let found = made(rt, alloc, &mut host);
    Ok((found, host.calls()))
}

#[test]
fn each_failing_call_of_a_making_is_named(rt: HostRuntime) -> Result<(), Fail> {
    for call in 0..MAKE {
        let found = made_at(&rt, rt.alloc(), call)?;
        assert!(rt; found == (Err(MakeFault::Disk), call + 1), "call {call}");
    }
    Ok(())
}

#[test]
fn what_is_no_cube_is_named(rt: HostRuntime) -> Result<(), Fail> {
    let mut zeros = MemHost::new(rt.alloc(), BLOCKS)?;
    let (found, writes) = played(&rt, rt.alloc(), &mut zeros);
    assert!(rt; found == Err(CubeFault::Damaged(Rule::Magic)) && writes == 0);
    zeros.fail_at(zeros.calls())?;
    let (found, _) = played(&rt, rt.alloc(), &mut zeros);
    assert!(rt; found == Err(CubeFault::Disk));
    Ok(())
}
