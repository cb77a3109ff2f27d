//! The tables of a volume with their journal: each change of them is whole or absent.
#![tactic(auto)]

mod attach;
mod change;
mod fault;
mod gather;
mod plan;
mod replay;
mod system;

pub use fault::{SystemFault, TablesFault};
pub use system::System;
