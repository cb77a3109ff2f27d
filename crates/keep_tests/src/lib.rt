//! What only a run shows of keeps that commit and of replays: what each crash and each failing call leave of whole lots.
#![tactic(auto)]

mod calls;
#[cfg(test)]
mod tests;
#[cfg(test)]
mod wide;

pub use calls::{commit_in, dir_in, empty_keep, put_in, recover_in};
