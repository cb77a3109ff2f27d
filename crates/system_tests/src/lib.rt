//! What only a run shows of the tables: worked bytes of both, each of their faults, their calls on a disk, and crashes in a change.
#![tactic(auto)]

#[cfg(test)]
mod changes;
#[cfg(test)]
mod names;
#[cfg(test)]
mod owners;
#[cfg(test)]
mod tables;
