//! The first session as the model answers it.
use crate::life::Life;
use crate::looks::{Looks, Stored};
use crate::text::{add_plain, reader_of};
use crate::world::World;
use ice_path::is_prefix;
use std::alloc::{AllocError, Global};
use tree_spec::{Command, Path, Refusal, Reply};

/// What the session tells.
#[derive(Drop)]
pub struct Story {
    /// Each cube that there was.
    pub lives: Vec<Life>,
    /// The volume before each line, before the script's end, and after it.
    pub worlds: Vec<World>,
    /// The reply to each line.
    pub replies: Vec<String>,
}

/// The paths of a command of a tree.
fn paths<'a>(command: &'a Command) -> Option<(&'a Path, Option<&'a Path>)> {
    match command {
        Command::Mkdir { path }
        | Command::Make { path }
        | Command::Write { path, .. }
        | Command::Read { path, .. }
        | Command::Trunc { path, .. }
        | Command::Remove { path }
        | Command::List { path }
        | Command::Stat { path } => Some((path, None)),
        Command::Rename { path, to } => Some((path, Some(to))),
        _ => None,
    }
}

/// The path of a command on a cube.
fn cube_path<'a>(command: &'a Command) -> Option<&'a Path> {
    match command {
        Command::Create { path, .. }
        | Command::Grow { path, .. }
        | Command::Delete { path }
        | Command::Check { path }
        | Command::Offline { path }
        | Command::Online { path }
        | Command::Mount { path }
        | Command::Unmount { path }
        | Command::Sync { path } => Some(path),
        _ => None,
    }
}

/// The number of the cube that has just this path, or that of no cube.
fn cube_at(looks: &[Looks], path: &Path) -> usize {
    for (cube, looks) in looks.iter().enumerate() {
        if looks.path.text() == path.text() {
            return cube;
        }
    }
    looks.len()
}

/// The number of the cube whose path begins this one.
fn cube_of(looks: &[Looks], world: &World, path: &Path) -> Result<usize, Refusal> {
    for (cube, looks) in looks.iter().enumerate() {
        if is_prefix(&looks.path, path) && world.place(cube).life.is_some() {
            return Ok(cube);
        }
    }
    Err(Refusal::NoCube)
}

/// The number of the cube to which a command of a tree goes.
fn routed(looks: &[Looks], world: &World, command: &Command) -> Result<usize, Refusal> {
    let (path, to) = paths(command).ok_or(Refusal::Word)?;
    let cube = cube_of(looks, world, path)?;
    if let Some(to) = to {
        if cube_of(looks, world, to)? != cube {
            return Err(Refusal::CrossCube);
        }
    }
    Ok(cube)
}

impl Story {
    /// The story of these lines over a fresh image.
    pub fn of(alloc: Global, stored: &Stored) -> Result<Story, AllocError> {
        let mut story = Story {
            lives: Vec::new(alloc),
            worlds: Vec::new(alloc),
            replies: Vec::new(alloc),
        };
        let mut world = World::new();
        for line in &stored.lines {
            story.worlds.push(world)?;
            let mut text = String::new(alloc);
            story.tell(alloc, &stored.looks, &mut world, line.as_str(), &mut text)?;
            story.replies.push(text)?;
        }
        story.worlds.push(world)?;
        story.worlds.push(world.ended())?;
        Ok(story)
    }

    /// Adds the reply to a line, and does to the world and its lives what the line does.
    fn tell(
        &mut self,
        alloc: Global,
        looks: &[Looks],
        world: &mut World,
        line: &str,
        text: &mut String,
    ) -> Result<(), AllocError> {
        let mut reader = reader_of(alloc, line)?;
        match reader.command() {
            Err(refusal) => add_plain(&Err(refusal), text),
            Ok(command) if paths(&command).is_some() => {
                self.ask(alloc, looks, world, &command, text)
            }
            Ok(command) => {
                let Some(path) = cube_path(&command) else {
                    return add_plain(&Err(Refusal::Word), text);
                };
                let cube = cube_at(looks, path);
                let reply = match command {
                    Command::Create { groups, .. } => self.create(
                        alloc, looks, world, cube, groups,
                    )?,
                    command => self.order(world, cube, &command),
                };
                add_plain(&reply, text)
            }
        }
    }

    /// The reply to `create`, and what it does. A path without looks finds no slot.
    fn create(
        &mut self,
        alloc: Global,
        looks: &[Looks],
        world: &mut World,
        cube: usize,
        groups: u32,
    ) -> Result<Reply, AllocError> {
        let Some(looks) = looks.get(cube) else {
            return Ok(Err(Refusal::NoSlot));
        };
        let reply = world.create(cube, self.lives.len(), groups);
        if reply.is_ok() {
            self.lives.push(Life::new(alloc, looks, groups)?)?;
        }
        Ok(reply)
    }

    /// The reply to another line on a cube, and what it does.
    fn order(&mut self, world: &mut World, cube: usize, command: &Command) -> Reply {
        match command {
            Command::Delete { .. } => world.delete(cube),
            Command::Grow { groups, .. } => {
                let reply = world.grow(cube, *groups)?;
                self.life_at(world, cube)?.widen(*groups);
                Ok(reply)
            }
            Command::Check { .. } => self.life_at(world, cube)?.checked(),
            Command::Offline { .. } => world.place_mut(cube)?.offline(),
            Command::Online { .. } => world.place_mut(cube)?.online(),
            Command::Mount { .. } => world.place_mut(cube)?.mount(),
            Command::Unmount { .. } => world.place_mut(cube)?.unmount(),
            Command::Sync { .. } => world.place_mut(cube)?.sync(),
            _ => Err(Refusal::Word),
        }
    }

    /// The life of the cube at this path.
    fn life_at(&mut self, world: &World, cube: usize) -> Result<&mut Life, Refusal> {
        let life = world.place(cube).life.ok_or(Refusal::NoCube)?;
        self.lives.get_mut(life).ok_or(Refusal::NoCube)
    }

    /// Adds the reply of a cube to a command of its tree.
    fn ask(
        &mut self,
        alloc: Global,
        looks: &[Looks],
        world: &mut World,
        command: &Command,
        text: &mut String,
    ) -> Result<(), AllocError> {
        let found = match routed(looks, world, command) {
            Ok(cube) => world.place(cube).open().map(|life| (cube, life)),
            Err(refusal) => Err(refusal),
        };
        let (cube, life) = match found {
            Ok(found) => found,
            Err(refusal) => return add_plain(&Err(refusal), text),
        };
        let (Some(life), Some(looks)) = (self.lives.get_mut(life), looks.get(cube)) else {
            return Ok(());
        };
        if life.answer(alloc, looks, command, text)? {
            if let Ok(place) = world.place_mut(cube) {
                place.accepted = place.accepted.saturating_add(1);
            }
        }
        Ok(())
    }
}
