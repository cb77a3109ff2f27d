//! Names, paths, commands, replies, room for answers, and the model that says what each line does.
#![tactic(auto)]

mod command;
mod name;
mod path;
mod reply;
mod room;

pub use command::Command;
pub use name::{NAME_LIMIT, Name, only_dots};
pub use path::{Path, TEXT_LIMIT, split_name};
pub use reply::{CubeRow, Entry, Refusal, Reply, StateWord, Value};
pub use room::Room;
