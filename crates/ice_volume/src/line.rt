//! One line, one reply.
ghost use Rattle.std.specs.Prelude.{◌≡◌, []};
ghost use Rattle.tree_spec.specs.Lines.{Asks, asked};
ghost use Rattle.ice_script.specs.Bounds.{InBounds};
ghost use Rattle.ice_volume.specs.Lines.{AnswersLine};
ghost use Rattle.ice_volume.specs.Volumes.{HasRoom};

use crate::fault::AreaFault;
use crate::volume::Volume;
use ice_base::Disk;
use tree_spec::{Command, Reply, Room, Value};

impl Volume {
    /// Answers a command; its data lines are left in the room. An `Err` says that a change of the tables failed from the first write of its
    /// gate on: then there is no reply, and the session ends. Want of memory is an answer of `create` and `mount` alone.
    pub fn line<D: Disk>(
        &mut self,
        disk: &mut D,
        command: &Command<'_>,
        room: &mut Room,
    ) -> Result<Reply, AreaFault>
        // The disk has all blocks of the volume, a line may ask for the command, and the room is empty.
        requires disk { HasRoom self.old (D.state disk.old) }
        requires bounds { InBounds (asked command.now) }
        requires bytes { room.old.bytes ≡ [] }
        requires entries { room.old.entries ≡ [] }
        requires rows { room.old.rows ≡ [] }
        ensures { AnswersLine D.state D.left (Asks (asked command.now)) self.old self.new room.new result disk.old disk.new }
    {
        match command {
            Command::Cubes => {
                self.list(room);
                Ok(Ok(Value::Listed(room.rows().len() as u32)))
            }
            Command::Create { path, groups } => self.create(disk, path, *groups),
            Command::Grow { path, groups } => self.grow(disk, path, *groups),
            Command::Delete { path } => self.delete(disk, path),
            Command::Offline { path } => self.offline(disk, path),
            Command::Online { path } => self.online(disk, path),
            Command::Mount { path } => Ok(self.mount(disk, path)),
            Command::Unmount { path } => Ok(self.unmount(disk, path)),
            Command::Check { path } => Ok(self.check(disk, path)),
            Command::Sync { path } => Ok(self.sync(disk, path)),
            _ => Ok(self.tree(disk, command, room)),
        }
    }
}
