//! A session over the cubes `/a`, `/b` and `/c`, and one over what a crash and damage to one of them left.
use crate::hosts::{after, both, damage, fresh, left_at, moment_of};
use disk_mem::MemHost;
use ice_base::Status;
use std::alloc::Global;
use std::process::Abort;
use std::test::Fail;

/// The first session. At its end `/c` has a directory that no sync has acknowledged, and so has `/b`.
const SCRIPT: &str =
    "create /a 1\ncreate /b 1\ncreate /c 1\nmkdir /a/x\nsync /a\nmkdir /b/x\nmkdir /c/x\nmkdir /c/y\nsync /c\nmkdir /a/y\nunmount /a\nmkdir /c/z\n";

const REPLIES: &str = "ok\nok\nok\nok\nok 1\nok\nok\nok\nok 2\nok\nok 2\nok\n";

/// Its replies where the first call of `sync /a` fails.
const FAULT: &str = "ok\nok\nok\nok\nno Fault\nok\nok\nok\nok 2\nno Stopped\nno Stopped\nok\n";

/// The second session.
const AGAIN: &str =
    "mount /a\nlist /a\nmount /b\nlist /b\nmount /c\nlist /c\nmkdir /c/w\nsync /c\ncubes\n";

/// Whether a call of `sync /a` fails, whether the crash comes behind the whole session or right behind the last reply, and the slot of the
/// damaged cube; then the replies of both sessions.
const CASES: [(bool, bool, u32, &str, &str); 5] = [
    (
        false,
        false,
        1,
        REPLIES,
        "ok 2\ndir x\ndir y\nok 2\nno Damaged 1\nno Unmounted\nok 2\ndir x\ndir y\nok 2\nok\nok 3\n0 1 mounted /a\n1 1 unmounted /b\n2 1 mounted /c\nok 3\n",
    ),
    (
        false,
        true,
        1,
        REPLIES,
        "ok 2\ndir x\ndir y\nok 2\nno Damaged 1\nno Unmounted\nok 3\ndir x\ndir y\ndir z\nok 3\nok\nok 4\n0 1 mounted /a\n1 1 unmounted /b\n2 1 mounted /c\nok 3\n",
    ),
    (
        false,
        false,
        0,
        REPLIES,
        "no Damaged 1\nno Unmounted\nok 0\nok 0\nok 2\ndir x\ndir y\nok 2\nok\nok 3\n0 1 unmounted /a\n1 1 mounted /b\n2 1 mounted /c\nok 3\n",
    ),
    (
        false,
        true,
        2,
        REPLIES,
        "ok 2\ndir x\ndir y\nok 2\nok 1\ndir x\nok 1\nno Damaged 1\nno Unmounted\nno Unmounted\nno Unmounted\n0 1 mounted /a\n1 1 mounted /b\n2 1 unmounted /c\nok 3\n",
    ),
    (
        true,
        false,
        1,
        FAULT,
        "ok 0\nok 0\nno Damaged 1\nno Unmounted\nok 2\ndir x\ndir y\nok 2\nok\nok 3\n0 1 mounted /a\n1 1 unmounted /b\n2 1 mounted /c\nok 3\n",
    ),
];

/// The call that is to fail: the first one of `sync /a`, behind the fourth reply.
fn failing(alloc: Global) -> Result<u64, Fail> {
    let host = after(alloc, SCRIPT, None)?;
    Ok(moment_of(&host, 4))
}

/// What a crash of the first session and damage to the cube of a slot leave, with the script of the second.
fn left(
    rt: &impl Abort,
    alloc: Global,
    call: Option<u64>,
    whole: bool,
    slot: u32,
) -> Result<MemHost, Fail> {
    let host = after(alloc, SCRIPT, call)?;
    let moment = if whole {
        host.calls()
    } else {
        moment_of(&host, 12)
    };
    let mut left = left_at(alloc, &host, moment, 3)?;
    damage(rt, &mut left, slot);
    left.set_script(AGAIN.as_bytes())?;
    Ok(left)
}

/// Asserts that both sessions end well with these replies.
fn answers(
    rt: &impl Abort,
    alloc: Global,
    first: &mut MemHost,
    second: &mut MemHost,
    replies: (&str, &str),
) -> Result<(), Fail> {
    let statuses = both(alloc, first, second)?;
    assert_eq!(rt; statuses, (Status::Done, Status::Done));
    let outputs = (
        str::from_utf8(first.output())?,
        str::from_utf8(second.output())?,
    );
    assert_eq!(rt; outputs, replies);
    Ok(())
}

#[test]
fn the_cubes_beside_a_damaged_one_are_mounted_with_what_they_acknowledged(
    rt: HostRuntime,
) -> Result<(), Fail> {
    let alloc = rt.alloc();
    let bad = failing(alloc)?;
    for (fails, whole, slot, replies, again) in &CASES {
        let call = if *fails { Some(bad) } else { None };
        let mut second = left(&rt, alloc, call, *whole, *slot)?;
        let mut first = fresh(alloc, SCRIPT, call)?;
        answers(&rt, alloc, &mut first, &mut second, (*replies, *again))?;
    }
    Ok(())
}
