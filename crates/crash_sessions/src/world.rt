//! The volume behind each line, by the model: what stands at each cube's path, and which slot and groups it has.
use std::fmt;
use tree_spec::{Refusal, Reply, Value};

/// The number of cubes, and of the volume's slots.
pub const CUBES: usize = 4;

/// The number of the volume's groups.
pub const GROUPS: usize = 7;

/// What stands at a cube's path.
#[derive(Clone, Copy)]
pub struct Place {
    /// The number of the cube's life, where there is a cube.
    pub life: Option<usize>,
    pub mounted: bool,
    pub offline: bool,
    /// The count that was acknowledged last.
    pub floor: u64,
    /// The number of accepted changes.
    pub accepted: u64,
}

const NOTHING: Place = Place {
    life: None,
    mounted: false,
    offline: false,
    floor: 0,
    accepted: 0,
};

impl fmt::Display for Place {
    fn fmt<W: fmt::Write>(&self, f: &mut fmt::Formatter<W>) -> fmt::Result {
        let (floor, accepted) = (self.floor, self.accepted);
        let word = if self.offline { "an offline" } else { "a" };
        match self.life {
            None => write!(f, "no cube"),
            Some(_) => write!(f, "{word} cube with a count from {floor} to {accepted}"),
        }
    }
}

impl Place {
    /// The life of the cube that answers here, or why it doesn't.
    pub fn open(&self) -> Result<usize, Refusal> {
        let life = self.life.ok_or(Refusal::NoCube)?;
        if self.offline {
            return Err(Refusal::Offline);
        }
        if !self.mounted {
            return Err(Refusal::Unmounted);
        }
        Ok(life)
    }

    /// `mount`.
    pub fn mount(&mut self) -> Reply {
        match self.open() {
            Err(Refusal::Unmounted) => {
                self.mounted = true;
                self.floor = self.accepted;
                Ok(Value::Number(self.floor))
            }
            Ok(_) => Err(Refusal::Mounted),
            Err(refusal) => Err(refusal),
        }
    }

    /// `sync`.
    pub fn sync(&mut self) -> Reply {
        self.open()?;
        self.floor = self.accepted;
        Ok(Value::Number(self.floor))
    }

    /// `unmount`.
    pub fn unmount(&mut self) -> Reply {
        let reply = self.sync()?;
        self.mounted = false;
        Ok(reply)
    }

    /// `offline`.
    pub fn offline(&mut self) -> Reply {
        match self.open() {
            Err(Refusal::Unmounted) => {
                self.offline = true;
                Ok(Value::Plain)
            }
            Err(Refusal::Offline) => Err(Refusal::State),
            Err(refusal) => Err(refusal),
            Ok(_) => Err(Refusal::Mounted),
        }
    }

    /// `online`.
    pub fn online(&mut self) -> Reply {
        match self.open() {
            Err(Refusal::Offline) => {
                self.offline = false;
                Ok(Value::Plain)
            }
            Err(Refusal::NoCube) => Err(Refusal::NoCube),
            _ => Err(Refusal::State),
        }
    }
}

/// The volume: what stands at each path, and for each slot and each group the number of the path whose cube has it.
#[derive(Clone, Copy)]
pub struct World {
    places: [Place; CUBES],
    slots: [Option<usize>; CUBES],
    groups: [Option<usize>; GROUPS],
}

impl World {
    /// A volume without cubes.
    pub fn new() -> World {
        World {
            places: [NOTHING; CUBES],
            slots: [None; CUBES],
            groups: [None; GROUPS],
        }
    }

    /// What stands at this path.
    pub fn place(&self, cube: usize) -> Place {
        self.places.get(cube).copied().unwrap_or(NOTHING)
    }

    /// What stands at this path, to be changed.
    pub fn place_mut(&mut self, cube: usize) -> Result<&mut Place, Refusal> {
        self.places.get_mut(cube).ok_or(Refusal::NoCube)
    }

    /// The slot of the cube at this path.
    pub fn has_slot(&self, cube: usize, slot: usize) -> bool {
        self.slots.get(slot).copied().flatten() == Some(cube)
    }

    /// Whether the cube at this path has the group.
    pub fn has_group(&self, cube: usize, group: usize) -> bool {
        self.groups.get(group).copied().flatten() == Some(cube)
    }

    /// The volume once the script has ended: all cubes are unmounted, and have all that they accepted.
    pub fn ended(&self) -> World {
        let mut ended = *self;
        for place in ended.places.iter_mut() {
            place.mounted = false;
            place.floor = place.accepted;
        }
        ended
    }

    /// `create`, which begins this life.
    pub fn create(&mut self, cube: usize, life: usize, groups: u32) -> Reply {
        if self.place(cube).life.is_some() {
            return Err(Refusal::Exists);
        }
        self.take_slot(cube)?;
        if let Err(refusal) = self.reserve(cube, groups) {
            self.release(cube);
            return Err(refusal);
        }
        *self.place_mut(cube)? = Place {
            life: Some(life),
            mounted: true,
            ..NOTHING
        };
        Ok(Value::Plain)
    }

    /// `grow`.
    pub fn grow(&mut self, cube: usize, groups: u32) -> Reply {
        match self.place(cube).life {
            None => Err(Refusal::NoCube),
            Some(_) => {
                self.reserve(cube, groups)?;
                Ok(Value::Plain)
            }
        }
    }

    /// `delete`.
    pub fn delete(&mut self, cube: usize) -> Reply {
        let place = self.place_mut(cube)?;
        if place.life.is_none() {
            return Err(Refusal::NoCube);
        }
        *place = NOTHING;
        self.release(cube);
        Ok(Value::Plain)
    }

    /// Gives the cube the least free slot.
    fn take_slot(&mut self, cube: usize) -> Result<(), Refusal> {
        for owner in self.slots.iter_mut() {
            if owner.is_none() {
                *owner = Some(cube);
                return Ok(());
            }
        }
        Err(Refusal::NoSlot)
    }

    /// The number of groups that no cube has.
    fn free(&self) -> u32 {
        let mut free: u32 = 0;
        for owner in &self.groups {
            if owner.is_none() {
                free = free.saturating_add(1);
            }
        }
        free
    }

    /// Gives the cube the least free groups. No cube can have as many as 64 of them.
    fn reserve(&mut self, cube: usize, groups: u32) -> Result<(), Refusal> {
        if self.free() < groups {
            return Err(Refusal::NoGroups);
        }
        let mut left = groups;
        for owner in self.groups.iter_mut() {
            if owner.is_none() && left > 0 {
                *owner = Some(cube);
                left -= 1;
            }
        }
        Ok(())
    }

    /// Frees the slot and the groups of a cube.
    fn release(&mut self, cube: usize) {
        for owner in self.slots.iter_mut().chain(self.groups.iter_mut()) {
            if *owner == Some(cube) {
                *owner = None;
            }
        }
    }
}
