//! Commands of a cube of two groups in memory.
ghost use Rattle.std.specs.Prelude.{◌≡◌, ◌≤◌, true, length, IfOk};
ghost use Rattle.ice_base.specs.Lots.{is_sited};
ghost use Rattle.tree_spec.specs.Lines.{asked};
ghost use Rattle.ice_cube.specs.Commands.{IsCommand};

use disk_mem::MemHost;
use fresh_lots::{BLOCKS, two_groups};
use ice_base::{Disk, Lot};
use ice_cube::{Cube, CubeFault, MakeFault};
use std::alloc::Global;
use std::process::Abort;
use std::test::Fail;
use tree_spec::{Command, Name, Path, Refusal, Reply, Room, Value};

/// The path with these names.
fn path_of(names: &[&[u8]]) -> Path {
    let mut path = Path::root();
    for bytes in names {
        if let Some(name) = Name::new(bytes) {
            let _ = path.push(&name);
        }
    }
    path
}

/// The reply of a cube of the root to a command.
fn tell<D: Disk>(
    rt: &impl Abort,
    cube: &mut Cube,
    disk: &mut D,
    command: &Command<'_>,
    room: &mut Room,
) -> Reply
    requires sited { is_sited cube.old.lot 800 ≡ true }
    requires some { 1 ≤ length cube.old.lot.groups }
    requires tree { IsCommand 0 (asked command.now) }
    ensures lot { cube.new.lot ≡ cube.old.lot }
{
    assert!(rt; disk.blocks() == BLOCKS);
    room.clear();
    cube.command(disk, command, 0, room)
}

/// Makes `/a` and the file `/a/f` with five bytes: three commands are accepted.
fn fill<D: Disk>(rt: &impl Abort, cube: &mut Cube, disk: &mut D, room: &mut Room)
    requires sited { is_sited cube.old.lot 800 ≡ true }
    requires some { 1 ≤ length cube.old.lot.groups }
    ensures lot { cube.new.lot ≡ cube.old.lot }
{
    let dir = Command::Mkdir {
        path: path_of(&[b"a"]),
    };
    let file = Command::Make {
        path: path_of(&[b"a", b"f"]),
    };
    let write = Command::Write {
        path: path_of(&[b"a", b"f"]),
        at: 0,
        bytes: b"hello",
    };
    let replies = [
        tell(rt, cube, disk, &dir, room),
        tell(rt, cube, disk, &dir, room),
        tell(rt, cube, disk, &file, room),
        tell(rt, cube, disk, &write, room),
    ];
    let plain = Ok(Value::Plain);
    assert_eq!(rt; replies, [plain, Err(Refusal::Exists), plain, plain]);
}

/// Whether the room has one entry, with this name.
fn has_one_entry(room: &Room, name: &[u8]) -> bool {
    match room.entries() {
        [entry] => entry.name.bytes() == name,
        _ => false,
    }
}

/// Finds what `fill` made: by a read, a listing, a look at the file and a check.
fn find<D: Disk>(rt: &impl Abort, cube: &mut Cube, disk: &mut D, room: &mut Room)
    requires sited { is_sited cube.old.lot 800 ≡ true }
    requires some { 1 ≤ length cube.old.lot.groups }
    ensures lot { cube.new.lot ≡ cube.old.lot }
{
    let read = Command::Read {
        path: path_of(&[b"a", b"f"]),
        at: 1,
        len: 3,
    };
    let bytes = tell(rt, cube, disk, &read, room);
    assert!(rt; bytes == Ok(Value::Bytes) && room.bytes() == b"ell".as_slice());
    let list = Command::List {
        path: path_of(&[b"a"]),
    };
    let listed = tell(rt, cube, disk, &list, room);
    assert!(rt; listed == Ok(Value::Listed(1)) && has_one_entry(room, b"f"));
    let stat = Command::Stat {
        path: path_of(&[b"a", b"f"]),
    };
    assert!(rt; tell(rt, cube, disk, &stat, room) == Ok(Value::File(5)));
}

/// A cube's check finds three blocks, three nodes and three accepted commands.
fn checks<D: Disk>(rt: &impl Abort, cube: &mut Cube, disk: &mut D) -> bool
    requires sited { is_sited cube.old.lot 800 ≡ true }
    ensures lot { cube.new.lot ≡ cube.old.lot }
{
    assert!(rt; disk.blocks() == BLOCKS && !cube.is_stopped());
    match cube.check(disk) {
        Ok(found) => found.blocks == 3 && found.nodes == 3 && found.done == 3,
        Err(_) => false,
    }
}

/// Makes a cube, fills it, and syncs it. Ok is what the sync answers.
fn first<D: Disk>(
    rt: &impl Abort,
    alloc: Global,
    disk: &mut D,
    lot: &Lot,
) -> Result<Result<u64, Refusal>, MakeFault>
    requires sited { is_sited lot.now 800 ≡ true }
    requires some { 1 ≤ length lot.now.groups }
{
    let Ok(mut room) = Room::new(alloc) else {
        return Err(MakeFault::Memory);
    };
    assert!(rt; disk.blocks() == BLOCKS);
    let mut cube = Cube::make(alloc, disk, lot)?;
    fill(rt, &mut cube, disk, &mut room);
    find(rt, &mut cube, disk, &mut room);
    assert!(rt; checks(rt, &mut cube, disk));
    assert!(rt; disk.blocks() == BLOCKS);
    Ok(cube.sync(disk))
}

/// Mounts a cube, and finds what was there. Ok is the number of its accepted commands.
fn second<D: Disk>(
    rt: &impl Abort,
    alloc: Global,
    disk: &mut D,
    lot: &Lot,
) -> Result<u64, CubeFault>
    requires sited { is_sited lot.now 800 ≡ true }
    requires some { 1 ≤ length lot.now.groups }
{
    let Ok(mut room) = Room::new(alloc) else {
        return Err(CubeFault::Memory);
    };
    assert!(rt; disk.blocks() == BLOCKS);
    let mut cube = Cube::mount(alloc, disk, lot)?;
    find(rt, &mut cube, disk, &mut room);
    assert!(rt; checks(rt, &mut cube, disk));
    Ok(cube.done())
}

#[test]
fn what_commands_made_is_there_after_a_mount(rt: HostRuntime) -> Result<(), Fail> {
    let lot = two_groups();
    let mut host = MemHost::new(rt.alloc(), BLOCKS)?;
    assert_eq!(rt; first(&rt, rt.alloc(), &mut host, &lot), Ok(Ok(3)));
    // One barrier of the making, and four of the one commit.
    assert_eq!(rt; host.barriers(), 5);
    assert_eq!(rt; second(&rt, rt.alloc(), &mut host, &lot), Ok(3));
    Ok(())
}

/// Makes a cube, and writes 144 blocks of one file in nine commands: it then holds back more than 144.
fn heap<D: Disk>(
    rt: &impl Abort,
    alloc: Global,
    disk: &mut D,
    lot: &Lot,
    room: &mut Room,
) -> Result<Cube, MakeFault>
    requires sited { is_sited lot.now 800 ≡ true }
    requires some { 1 ≤ length lot.now.groups }
    ensures { IfOk result (λ c. c.lot ≡ lot.now) }
{
    assert!(rt; disk.blocks() == BLOCKS);
    let mut cube = Cube::make(alloc, disk, lot)?;
    let file = Command::Make {
        path: path_of(&[b"f"]),
    };
    assert_eq!(rt; tell(rt, &mut cube, disk, &file, room), Ok(Value::Plain));
    for k in 0..9u32 {
        let write = Command::Write {
            path: path_of(&[b"f"]),
            at: k * 16384,
            bytes: &[7; 16384],
        };
        assert_eq!(rt; tell(rt, &mut cube, disk, &write, room), Ok(Value::Plain));
    }
    Ok(cube)
}

/// With 149 blocks held back, refused paths call no disk, and the next change makes a commit of them first.
fn crowd(
    rt: &impl Abort,
    alloc: Global,
    host: &mut MemHost,
    lot: &Lot,
    room: &mut Room,
) -> Result<(), MakeFault>
    requires sited { is_sited lot.now 800 ≡ true }
    requires some { 1 ≤ length lot.now.groups }
{
    let mut cube = heap(rt, alloc, host, lot, room)?;
    let calls = host.calls();
    let deep = Command::Mkdir {
        path: path_of(&[b"a".as_slice(); 25]),
    };
    let long = Command::Mkdir {
        path: path_of(&[[b'a'; 60].as_slice()]),
    };
    let refused = [
        tell(rt, &mut cube, host, &deep, room),
        tell(rt, &mut cube, host, &long, room),
    ];
    let counts = [host.calls(), host.writes(), host.barriers()];
    assert_eq!(rt;
        (refused, counts),
        (
            [Err(Refusal::TooDeep), Err(Refusal::NameLong)],
            [calls, 20, 1]
        )
    );
    let dir = Command::Mkdir {
        path: path_of(&[b"d"]),
    };
    let made = tell(rt, &mut cube, host, &dir, room);
    // Bodies and homes of 144 blocks of data, one of pointers, the root's one, inodes, a bitmap and the sub-super block; header, gate twice.
    assert_eq!(rt;
        (made, host.writes(), host.barriers()),
        (Ok(Value::Plain), 20 + 2 * 149 + 3, 5)
    );
    Ok(())
}

#[test]
fn a_change_over_a_full_cube_commits_first(rt: HostRuntime) -> Result<(), Fail> {
    let lot = two_groups();
    let mut host = MemHost::new(rt.alloc(), BLOCKS)?;
    let mut room = Room::new(rt.alloc())?;
    assert_eq!(rt; crowd(&rt, rt.alloc(), &mut host, &lot, &mut room), Ok(()));
    Ok(())
}
