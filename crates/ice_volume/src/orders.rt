//! Orders to the cube of one slot, by what the session has of it.
ghost use Rattle.std.specs.Prelude.{◌≡◌, Bool, true, None, Some, []};
ghost use Rattle.ice_base.specs.Lots.{LotView, is_sited};
ghost use Rattle.tree_spec.specs.Held.{RoomContent};
ghost use Rattle.tree_spec.specs.Lines.{asked};
ghost use Rattle.tree_spec.specs.Operations.{Operation, operation};
ghost use Rattle.tree_spec.specs.Own.{OnTree, Sync, Unmount, Mount, Check};
ghost use Rattle.ice_cube.specs.Commands.{IsCommand};
ghost use Rattle.ice_volume.specs.Cells.{cell_state};
ghost use Rattle.ice_volume.specs.Orders.{AnswersOrder, IsCellOf, IsSited, cell_without, closed_refusal, fault_refusal, mount_refusal, told_check, told_number};

use crate::cell::Cell;
use ice_base::{Disk, Lot};
use ice_check::{CheckFault, Summary, check_lot};
use ice_cube::{Cube, CubeFault};
use std::alloc::Global;
use std::mem;
use tree_spec::{Command, Refusal, Reply, Room, StateWord, Value};

/// The refusal of a cube that no session has mounted.
fn closed_refusal(offline: bool) -> Refusal
    ensures { result ≡ closed_refusal offline }
{
    if offline {
        Refusal::Offline
    } else {
        Refusal::Unmounted
    }
}

/// The reply that says a count.
fn told_number(counted: Result<u64, Refusal>) -> Reply
    ensures { result ≡ told_number counted }
{
    match counted {
        Ok(done) => Ok(Value::Number(done)),
        Err(refusal) => Err(refusal),
    }
}

/// The cell after an unmount.
fn cell_without(unmounted: &Result<u64, Refusal>) -> Cell
    ensures { result ≡ cell_without unmounted.now }
{
    match unmounted {
        Ok(_) => Cell::Closed,
        Err(_) => Cell::Stopped,
    }
}

/// The reply to a check.
fn told_check(checked: Result<Summary, CheckFault>) -> Reply
    ensures { result ≡ told_check checked }
{
    match checked {
        Ok(summary) => Ok(Value::Checked {
            blocks: summary.blocks,
            nodes: summary.nodes,
            done: summary.done,
        }),
        Err(CheckFault::Disk) => Err(Refusal::Fault),
        Err(CheckFault::Damaged(rule)) => Err(Refusal::Damaged(rule as u8)),
    }
}

/// The refusal of a mount that failed.
fn fault_refusal(fault: CubeFault) -> Refusal
    ensures { result ≡ fault_refusal fault }
{
    match fault {
        CubeFault::Memory => Refusal::Memory,
        CubeFault::Disk => Refusal::Fault,
        CubeFault::Damaged(rule) => Refusal::Damaged(rule as u8),
    }
}

/// Why a cube in this state is not mounted.
fn mount_refusal(state: StateWord) -> Option<Refusal>
    ensures { result ≡ mount_refusal state }
{
    match state {
        StateWord::Mounted => Some(Refusal::Mounted),
        StateWord::Offline => Some(Refusal::Offline),
        StateWord::Unmounted | StateWord::Stopped => None,
    }
}

/// Syncs the cube of a slot. Offline, Unmounted, Stopped: it isn't mounted.
pub(crate) fn sync_cell<D: Disk>(cell: &mut Cell, disk: &mut D, offline: bool) -> Reply
    requires sited { IsSited cell.old (D.state disk.old).size }
    ensures { (lot : LotView) (room : RoomContent) → IsCellOf lot cell.old
        → AnswersOrder D.state D.left lot Sync offline cell.old cell.new room result disk.old disk.new }
{
    match cell {
        Cell::Closed => Err(closed_refusal(offline)),
        Cell::Stopped => Err(Refusal::Stopped),
        Cell::Open(cube) => told_number(cube.sync(disk)),
    }
}

/// Unmounts the cube of a slot. Offline, Unmounted, Stopped: it isn't mounted. After a fault the cube is stopped.
pub(crate) fn unmount_cell<D: Disk>(cell: &mut Cell, disk: &mut D, offline: bool) -> Reply
    requires sited { IsSited cell.old (D.state disk.old).size }
    ensures { (lot : LotView) (room : RoomContent) → IsCellOf lot cell.old
        → AnswersOrder D.state D.left lot Unmount offline cell.old cell.new room result disk.old disk.new }
{
    match mem::replace(cell, Cell::Closed) {
        Cell::Closed => Err(closed_refusal(offline)),
        Cell::Stopped => {
            *cell = Cell::Stopped;
            Err(Refusal::Stopped)
        }
        Cell::Open(cube) => {
            let unmounted = cube.unmount(disk);
            *cell = cell_without(&unmounted);
            told_number(unmounted)
        }
    }
}

/// Mounts the lot of a slot whose cube can be mounted. After a failure the slot is as it was.
fn mount_lot<D: Disk>(cell: &mut Cell, alloc: Global, disk: &mut D, lot: &Lot) -> Reply
    requires sited { is_sited lot.now (D.state disk.old).size ≡ true }
    ensures { (offline : Bool) (room : RoomContent) → IsCellOf lot.now cell.old → mount_refusal (cell_state cell.old offline) ≡ None
        → AnswersOrder D.state D.left lot.now Mount offline cell.old cell.new room result disk.old disk.new }
{
    match Cube::mount(alloc, disk, lot) {
        Ok(cube) => {
            let done = cube.done();
            *cell = Cell::Open(cube);
            Ok(Value::Number(done))
        }
        Err(fault) => Err(fault_refusal(fault)),
    }
}

/// Mounts the lot of a slot whose cube is in this state. Mounted, Offline: it can't be mounted.
pub(crate) fn mount_cell<D: Disk>(
    cell: &mut Cell,
    alloc: Global,
    disk: &mut D,
    lot: &Lot,
    state: StateWord,
) -> Reply
    requires sited { is_sited lot.now (D.state disk.old).size ≡ true }
    ensures { (offline : Bool) (room : RoomContent) → IsCellOf lot.now cell.old → state ≡ cell_state cell.old offline
        → AnswersOrder D.state D.left lot.now Mount offline cell.old cell.new room result disk.old disk.new }
{
    match mount_refusal(state) {
        Some(refusal) => Err(refusal),
        None => mount_lot(cell, alloc, disk, lot),
    }
}

/// Checks the cube of a slot: what it accepted, where it is mounted, else the lot.
pub(crate) fn check_cell<D: Disk>(cell: &mut Cell, disk: &mut D, lot: &Lot) -> Reply
    requires cell { IsSited cell.old (D.state disk.old).size }
    requires sited { is_sited lot.now (D.state disk.old).size ≡ true }
    ensures { (offline : Bool) (room : RoomContent) → IsCellOf lot.now cell.old
        → AnswersOrder D.state D.left lot.now Check offline cell.old cell.new room result disk.old disk.new }
{
    match cell {
        Cell::Closed => told_check(check_lot(disk, lot)),
        Cell::Stopped => told_check(check_lot(disk, lot)),
        Cell::Open(cube) => {
            if cube.is_stopped() {
                told_check(check_lot(disk, lot))
            } else {
                told_check(cube.check(disk))
            }
        }
    }
}

/// Answers a command of the tree in a slot. Offline, Unmounted, Stopped: its cube isn't mounted.
pub(crate) fn tree_cell<D: Disk>(
    cell: &mut Cell,
    disk: &mut D,
    command: &Command<'_>,
    depth: usize,
    room: &mut Room,
    offline: bool,
) -> Reply
    requires sited { IsSited cell.old (D.state disk.old).size }
    requires tree { IsCommand depth (asked command.now) }
    requires bytes { room.old.bytes ≡ [] }
    requires entries { room.old.entries ≡ [] }
    requires rows { room.old.rows ≡ [] }
    ensures { (lot : LotView) (op : Operation) → operation depth (asked command.now) ≡ Some op → IsCellOf lot cell.old
        → AnswersOrder D.state D.left lot (OnTree op) offline cell.old cell.new room.new result disk.old disk.new }
{
    match cell {
        Cell::Closed => Err(closed_refusal(offline)),
        Cell::Stopped => Err(Refusal::Stopped),
        Cell::Open(cube) => cube.command(disk, command, depth, room),
    }
}
