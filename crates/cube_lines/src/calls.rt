//! The commands of a tree as calls.
ghost use Rattle.std.specs.Prelude.{◌≡◌, ◌≤◌, true, length};
ghost use Rattle.ice_base.specs.Lots.{is_sited};

use crate::lines::command_of;
use fresh_lots::BLOCKS;
use ice_base::{Disk, FormOne, Keep, Lot};
use ice_pool::BitPool;
use ice_tree::{list, make, mkdir, read, remove, rename, stat, trunc, write};
use tree_spec::{Command, Refusal, Reply, Room, Value};

/// The most blocks that one command puts.
const MOST_PUTS: u32 = 96;

fn plain(answer: Result<(), Refusal>) -> Reply {
    match answer {
        Ok(()) => Ok(Value::Plain),
        Err(refusal) => Err(refusal),
    }
}

/// The reply of a lot to a tree command. The first `depth` names of each path are those of the cube's path.
///
/// Memory: the keep has no room left for a command. Args: it is no tree command, or a path has fewer names. Long: more than 16,384 bytes.
/// Fault: the disk has other than 800 blocks.
pub fn reply<D: Disk, K: Keep<D>>(
    keep: &mut K,
    disk: &mut D,
    lot: &Lot,
    command: &Command,
    depth: usize,
    room: &mut Room,
) -> Reply
    requires sited { is_sited lot.now 800 ≡ true }
    requires some { 1 ≤ length lot.now.groups }
{
    if disk.blocks() != BLOCKS {
        return Err(Refusal::Fault);
    }
    room.clear();
    match command {
        Command::Read { path, at, len } => {
            if path.len() < depth {
                return Err(Refusal::Args);
            }
            if *len > 16384 {
                return Err(Refusal::Long);
            }
            read::<D, K, FormOne>(keep, disk, lot, path, depth, *at, *len, room)
        }
        Command::List { path } => {
            if path.len() < depth {
                return Err(Refusal::Args);
            }
            list::<D, K, FormOne>(keep, disk, lot, path, depth, room)
        }
        Command::Stat { path } => {
            if path.len() < depth {
                return Err(Refusal::Args);
            }
            stat::<D, K, FormOne>(keep, disk, lot, path, depth)
        }
        _ => plain(change(keep, disk, lot, command, depth)),
    }
}

/// What a command answers that changes the tree.
fn change<D: Disk, K: Keep<D>>(
    keep: &mut K,
    disk: &mut D,
    lot: &Lot,
    command: &Command,
    depth: usize,
) -> Result<(), Refusal>
    requires size { (D.state disk.old).size ≡ 800 }
    requires sited { is_sited lot.now 800 ≡ true }
    requires some { 1 ≤ length lot.now.groups }
{
    if keep.spare() < MOST_PUTS {
        return Err(Refusal::Memory);
    }
    let mut pool = BitPool::new();
    match command {
        Command::Mkdir { path } if path.len() >= depth => {
            mkdir::<D, K, BitPool, FormOne>(keep, &mut pool, disk, lot, path, depth)
        }
        Command::Make { path } if path.len() >= depth => {
            make::<D, K, BitPool, FormOne>(keep, &mut pool, disk, lot, path, depth)
        }
        Command::Remove { path } if path.len() >= depth => {
            remove::<D, K, BitPool, FormOne>(keep, &mut pool, disk, lot, path, depth)
        }
        Command::Write { path, at, bytes } if path.len() >= depth => {
            if bytes.len() > 16384 {
                return Err(Refusal::Long);
            }
            write::<D, K, BitPool, FormOne>(keep, &mut pool, disk, lot, path, depth, *at, bytes)
        }
        Command::Trunc { path, len } if path.len() >= depth => {
            trunc::<D, K, BitPool, FormOne>(keep, &mut pool, disk, lot, path, depth, *len)
        }
        Command::Rename { path, to } if path.len() >= depth && to.len() >= depth => {
            rename::<D, K, BitPool, FormOne>(keep, &mut pool, disk, lot, path, to, depth)
        }
        _ => Err(Refusal::Args),
    }
}

/// The reply of a lot to a line that is a tree command.
pub fn reply_to<D: Disk, K: Keep<D>>(
    keep: &mut K,
    disk: &mut D,
    lot: &Lot,
    line: &[u8],
    depth: usize,
    room: &mut Room,
) -> Reply
    requires sited { is_sited lot.now 800 ≡ true }
    requires some { 1 ≤ length lot.now.groups }
{
    let mut bytes = [0; 16384];
    match command_of(line, &mut bytes) {
        Ok(command) => reply(keep, disk, lot, &command, depth, room),
        Err(refusal) => Err(refusal),
    }
}
