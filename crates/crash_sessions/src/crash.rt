//! What a crash leaves, and what damage makes of it.
use crate::world::{CUBES, GROUPS, World};
use disk_mem::MemHost;
use ice_base::{Disk, Host, Status, Words};
use ice_run::run;
use std::alloc::{AllocError, Global};

/// The blocks before the slots.
const FRONT: u32 = 32;

/// The blocks of a slot, and of a group.
const PART: u32 = 256;

/// The blocks of the image.
pub const BLOCKS: u32 = 2848;

/// More writes, barriers and replies than a second session makes.
const CALLS: u32 = 2000;

/// More bytes than a second session gives.
const BYTES: u32 = 500_000;

/// The words of a session.
pub const RUN: [&str; 2] = ["run", "img"];

/// The status of a run of the words.
pub fn status_of<H: Host>(
    alloc: Global,
    texts: &[&str],
    host: &mut H,
) -> Result<Status, AllocError> {
    let mut words = Words::new(alloc);
    for text in texts {
        words.push(text)?;
    }
    Ok(run(alloc, &words, host))
}

/// A host that holds what a crash at the moment leaves, with no call made yet.
pub fn left_at(
    alloc: Global,
    host: &MemHost,
    moment: u64,
    fill: u64,
) -> Result<MemHost, AllocError> {
    let mut left = host.crashed(alloc, moment.min(host.calls()), fill)?;
    left.reserve(CALLS, BYTES)?;
    Ok(left)
}

/// Overwrites so many blocks of a host of which no call was made.
fn overwrite(host: &mut MemHost, first: u32) {
    for at in first..first.saturating_add(PART) {
        if at < host.blocks() && host.calls() == 0 {
            let block = [(at % 251) as u8 | 1; 1024];
            host.set_block(at, &block);
        }
    }
}

/// Overwrites the slot's area and the groups that the cube has in the world.
pub fn overwrite_cube(host: &mut MemHost, world: &World, cube: usize) {
    for part in 0..CUBES + GROUPS {
        let is_its = if part < CUBES {
            world.has_slot(cube, part)
        } else {
            world.has_group(cube, part - CUBES)
        };
        if is_its {
            overwrite(host, FRONT + PART * part as u32);
        }
    }
}
