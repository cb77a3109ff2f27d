//! The calls of a tree, over the keep of a cube.
ghost use Rattle.std.specs.Prelude.{◌≡◌, ◌≤◌, ◌⊎◌, Some, [], true, false, length, IfErr};
ghost use Rattle.ice_base.specs.Lots.{is_sited};
ghost use Rattle.tree_spec.specs.Costs.{form_one};
ghost use Rattle.tree_spec.specs.Lines.{asked};
ghost use Rattle.tree_spec.specs.Operations.{Operation, operation, paths};
ghost use Rattle.tree_spec.specs.declared.reply.Refusal.TheVariants.{NameLong, TooDeep};
ghost use Rattle.ice_look.specs.Calls.{RefusedBy};
ghost use Rattle.ice_look.specs.Stages.{paths_refusal};
ghost use Rattle.ice_cube.specs.Called.{ChangedAs, LookedAt, is_look};
ghost use Rattle.ice_cube.specs.Commands.{IsCommand};

use ice_base::{Disk, FormOne, Lot};
use ice_keep::JournalKeep;
use ice_look::{check_path, check_paths, list, read, stat};
use ice_pool::BitPool;
use ice_tree::{make, mkdir, remove, rename, trunc, write};
use tree_spec::{Command, Refusal, Reply, Room};

/// Whether a command looks at a tree without changing it.
pub(crate) fn looks(command: &Command<'_>) -> bool
    ensures { result ≡ is_look (asked command.now) }
{
    matches!(
        command,
        Command::Read { .. } | Command::List { .. } | Command::Stat { .. }
    )
}

/// Refuses a command of a tree by the names of its paths: NameLong, then TooDeep.
pub(crate) fn check_names(command: &Command<'_>, depth: usize) -> Result<(), Refusal>
    requires tree { IsCommand depth (asked command.now) }
    ensures refusal { (op : Operation) → operation depth (asked command.now) ≡ Some op
        → RefusedBy (paths_refusal form_one (paths op)) result }
    ensures set { IfErr result (λ r. (r ≡ NameLong) ⊎ (r ≡ TooDeep)) }
{
    match command {
        Command::Mkdir { path }
        | Command::Make { path }
        | Command::Write { path, .. }
        | Command::Read { path, .. }
        | Command::Trunc { path, .. }
        | Command::Remove { path }
        | Command::List { path }
        | Command::Stat { path } => check_path::<FormOne>(path, depth),
        Command::Rename { path, to } => check_paths::<FormOne>(path, to, depth),
        _ => unreachable!(),
    }
}

/// Looks at the tree that a keep shows.
pub(crate) fn look_at<D: Disk>(
    keep: &mut JournalKeep,
    disk: &mut D,
    lot: &Lot,
    command: &Command<'_>,
    depth: usize,
    room: &mut Room,
) -> Reply
    // The lot lies on the disk and has a group, the command is a look, and the room is empty.
    requires sited { is_sited lot.now (D.state disk.old).size ≡ true }
    requires some { 1 ≤ length lot.now.groups }
    requires tree { IsCommand depth (asked command.now) }
    requires look { is_look (asked command.now) ≡ true }
    requires bytes { room.old.bytes ≡ [] }
    requires entries { room.old.entries ≡ [] }
    requires rows { room.old.rows ≡ [] }
    ensures { (op : Operation) → operation depth (asked command.now) ≡ Some op
        → LookedAt D.state D.left lot.now op keep.old disk.old result room.new keep.new disk.new }
{
    match command {
        Command::Read { path, at, len } => {
            read::<D, JournalKeep, FormOne>(keep, disk, lot, path, depth, *at, *len, room)
        }
        Command::List { path } => {
            list::<D, JournalKeep, FormOne>(keep, disk, lot, path, depth, room)
        }
        Command::Stat { path } => stat::<D, JournalKeep, FormOne>(keep, disk, lot, path, depth),
        _ => unreachable!(),
    }
}

/// Changes the tree that a keep shows.
pub(crate) fn change_in<D: Disk>(
    keep: &mut JournalKeep,
    pool: &mut BitPool,
    disk: &mut D,
    lot: &Lot,
    command: &Command<'_>,
    depth: usize,
) -> Result<(), Refusal>
    // The lot lies on the disk and has a group, the command is a change, and the keep has room.
    requires sited { is_sited lot.now (D.state disk.old).size ≡ true }
    requires some { 1 ≤ length lot.now.groups }
    requires tree { IsCommand depth (asked command.now) }
    requires change { is_look (asked command.now) ≡ false }
    requires room { length keep.old.entries ≤ 144 }
    ensures { (op : Operation) → operation depth (asked command.now) ≡ Some op
        → ChangedAs D.state D.left lot.now op keep.old disk.old result keep.new disk.new }
{
    match command {
        Command::Mkdir { path } => {
            mkdir::<D, JournalKeep, BitPool, FormOne>(keep, pool, disk, lot, path, depth)
        }
        Command::Make { path } => {
            make::<D, JournalKeep, BitPool, FormOne>(keep, pool, disk, lot, path, depth)
        }
        Command::Write { path, at, bytes } => {
            write::<D, JournalKeep, BitPool, FormOne>(
                keep, pool, disk, lot, path, depth, *at, bytes,
            )
        }
        Command::Trunc { path, len } => {
            trunc::<D, JournalKeep, BitPool, FormOne>(keep, pool, disk, lot, path, depth, *len)
        }
        Command::Remove { path } => {
            remove::<D, JournalKeep, BitPool, FormOne>(keep, pool, disk, lot, path, depth)
        }
        Command::Rename { path, to } => {
            rename::<D, JournalKeep, BitPool, FormOne>(keep, pool, disk, lot, path, to, depth)
        }
        _ => unreachable!(),
    }
}
