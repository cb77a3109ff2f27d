//! What a line is answered.
ghost use Rattle.std.specs.Prelude.{◌≡◌};

use crate::name::Name;
use crate::path::Path;

/// Why a command was refused, in the order of their numbers, from 1. `Damaged` has the number of the rule that is broken.
#[derive(Clone, Copy, Debug, PartialEq, Eq)]
pub enum Refusal {
    NameLong,
    TooDeep,
    NotFound,
    NotDir,
    IsDir,
    IsRoot,
    Exists,
    NotEmpty,
    IntoItself,
    BeyondEnd,
    FileBig,
    NoNodes,
    NoSpace,
    Spent,
    Damaged(u8),
    Fault,
    Memory,
    Word,
    Args,
    Number,
    Hex,
    Long,
    Path,
    NoCube,
    CrossCube,
    Offline,
    Stopped,
    Unmounted,
    Mounted,
    State,
    NoSlot,
    CubeFull,
    NoGroups,
}

/// The value of an accepted command. `Bytes` stands for the room's bytes, and `Listed` for its entries and rows, with their number.
#[derive(Clone, Copy, Debug, PartialEq, Eq)]
pub enum Value {
    Plain,
    Number(u64),
    Bytes,
    Dir(u32),
    File(u32),
    Listed(u32),
    Checked { blocks: u32, nodes: u32, done: u64 },
}

pub type Reply = Result<Value, Refusal>;

/// A directory's entry: a directory or a file.
#[derive(Drop)]
pub struct Entry {
    pub name: Name,
    pub dir: bool,
}

#[derive(Clone, Copy, Debug, PartialEq, Eq)]
pub enum StateWord {
    Mounted,
    Unmounted,
    Stopped,
    Offline,
}

/// A cube in the list of cubes.
#[derive(Drop)]
pub struct CubeRow {
    pub slot: u8,
    pub groups: u8,
    pub state: StateWord,
    pub path: Path,
}

impl Refusal {
    ghost use Rattle.tree_spec.specs.Replies.{refusal_number};

    /// The number of the variant, 1 to 33.
    pub fn number(&self) -> u8
        ensures { result ≡ refusal_number self.now }
    {
        match self {
            Refusal::NameLong => 1,
            Refusal::TooDeep => 2,
            Refusal::NotFound => 3,
            Refusal::NotDir => 4,
            Refusal::IsDir => 5,
            Refusal::IsRoot => 6,
            Refusal::Exists => 7,
            Refusal::NotEmpty => 8,
            Refusal::IntoItself => 9,
            Refusal::BeyondEnd => 10,
            Refusal::FileBig => 11,
            Refusal::NoNodes => 12,
            Refusal::NoSpace => 13,
            Refusal::Spent => 14,
            Refusal::Damaged(_) => 15,
            Refusal::Fault => 16,
            Refusal::Memory => 17,
            Refusal::Word => 18,
            Refusal::Args => 19,
            Refusal::Number => 20,
            Refusal::Hex => 21,
            Refusal::Long => 22,
            Refusal::Path => 23,
            Refusal::NoCube => 24,
            Refusal::CrossCube => 25,
            Refusal::Offline => 26,
            Refusal::Stopped => 27,
            Refusal::Unmounted => 28,
            Refusal::Mounted => 29,
            Refusal::State => 30,
            Refusal::NoSlot => 31,
            Refusal::CubeFull => 32,
            Refusal::NoGroups => 33,
        }
    }
}
