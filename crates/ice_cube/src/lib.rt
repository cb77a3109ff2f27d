//! One mounted cube: mounts, and commits that outlast crashes; the blocks of a new one.
#![tactic(auto)]

mod check;
mod command;
mod cube;
mod fault;
mod fresh;
mod laws;
mod make;
mod mount;
mod tree_calls;
mod widen;

pub use cube::Cube;
pub use fault::{CubeFault, MakeFault};
pub use fresh::init_groups;
pub use laws::{cubes_outlast_others, mounted_cube_holds_cut, wider_lots_have_the_same};
