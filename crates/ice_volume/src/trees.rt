//! The commands of one tree.
ghost use Rattle.std.specs.Prelude.{◌≡◌, ◌≢◌, [], ◌∷◌, map, None, Ok, IfOk};
ghost use Rattle.tree_spec.specs.Lines.{Asks, asked};
ghost use Rattle.tree_spec.specs.Operations.{operation};
ghost use Rattle.ice_script.specs.Bounds.{InBounds};
ghost use Rattle.ice_volume.specs.Lines.{AnswersLine};
ghost use Rattle.ice_volume.specs.Targets.{AllCatch, one_slot, paths_asked, routed, slot_of};
ghost use Rattle.ice_volume.specs.Volumes.{HasRoom};
ghost use Rattle.ice_volume.specs.declared.fault.AreaFault.{AreaFault};

use crate::orders::tree_cell;
use crate::volume::Volume;
use ice_base::Disk;
use ice_names::Names;
use tree_spec::{Command, Path, Refusal, Reply, Room};

/// The slot to whose cube a path routes, with the number of names of the cube's path.
fn route_one(names: &Names, path: &Path) -> Result<(u8, usize), Refusal>
    ensures slot { slot_of result ≡ one_slot (map (routed names.now) (path.now ∷ [])) }
    ensures caught { IfOk result (λ a. AllCatch names.now a.0 a.1 (path.now ∷ [])) }
{
    match names.route(path) {
        Some(target) => Ok(target),
        None => Err(Refusal::NoCube),
    }
}

/// The slot to whose cube both paths route, likewise. CrossCube: they route to two cubes.
fn route_two(names: &Names, path: &Path, to: &Path) -> Result<(u8, usize), Refusal>
    ensures slot { slot_of result ≡ one_slot (map (routed names.now) (path.now ∷ to.now ∷ [])) }
    ensures caught { IfOk result (λ a. AllCatch names.now a.0 a.1 (path.now ∷ to.now ∷ [])) }
{
    let here = match names.route(path) {
        Some(target) => target,
        None => return Err(Refusal::NoCube),
    };
    let there = match names.route(to) {
        Some(target) => target,
        None => return Err(Refusal::NoCube),
    };
    if here.0 != there.0 {
        return Err(Refusal::CrossCube);
    }
    Ok(here)
}

/// The slot to whose cube all paths of a command route, with the number of names of the cube's path.
fn target(names: &Names, command: &Command<'_>) -> Result<(u8, usize), Refusal>
    requires tree { operation 0 (asked command.now) ≢ None }
    ensures slot { slot_of result ≡ one_slot (map (routed names.now) (paths_asked (asked command.now))) }
    ensures caught { IfOk result (λ a. AllCatch names.now a.0 a.1 (paths_asked (asked command.now))) }
{
    match command {
        Command::Mkdir { path } => route_one(names, path),
        Command::Make { path } => route_one(names, path),
        Command::Write { path, .. } => route_one(names, path),
        Command::Read { path, .. } => route_one(names, path),
        Command::Trunc { path, .. } => route_one(names, path),
        Command::Remove { path } => route_one(names, path),
        Command::Rename { path, to } => route_two(names, path, to),
        Command::List { path } => route_one(names, path),
        Command::Stat { path } => route_one(names, path),
        _ => unreachable!(),
    }
}

impl Volume {
    /// Answers a command of the tree of the cube to which its paths route.
    pub(crate) fn tree<D: Disk>(
        &mut self,
        disk: &mut D,
        command: &Command<'_>,
        room: &mut Room,
    ) -> Reply
        // The disk has all blocks, the command is one of a tree as a line has it, and the room is empty.
        requires disk { HasRoom self.old (D.state disk.old) }
        requires tree { operation 0 (asked command.now) ≢ None }
        requires bounds { InBounds (asked command.now) }
        requires bytes { room.old.bytes ≡ [] }
        requires entries { room.old.entries ≡ [] }
        requires rows { room.old.rows ≡ [] }
        ensures { AnswersLine {X = AreaFault} D.state D.left (Asks (asked command.now)) self.old self.new room.new (Ok result) disk.old disk.new }
    {
        let (slot, depth) = match target(self.system.names(), command) {
            Ok(target) => target,
            Err(refusal) => return Err(refusal),
        };
        let _lot = match self.lot(slot) {
            Some(lot) => lot,
            None => return Err(Refusal::NoCube),
        };
        let offline = self.is_offline(slot);
        tree_cell(
            &mut self.cells[slot as usize],
            disk,
            command,
            depth,
            room,
            offline,
        )
    }
}
