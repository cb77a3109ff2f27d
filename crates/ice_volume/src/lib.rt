//! All cubes of an image: one line, one reply.
#![tactic(auto)]

mod attach;
mod cell;
mod cubes;
mod fault;
mod finish;
mod groups;
mod line;
mod list;
mod orders;
mod tables;
mod trees;
mod volume;

pub use cell::Cell;
pub use fault::AreaFault;
pub use ice_system::TablesFault as AttachFault;
pub use volume::Volume;
