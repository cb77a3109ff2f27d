//! Hosts in memory: one that tells what it holds and what each crash leaves, and one that tells nothing.
#![tactic(auto)]

mod blocks;
mod crash;
mod flags;
mod mem_host;
mod mute;
mod record;
mod step;

pub use mem_host::MemHost;
pub use mute::MuteHost;
