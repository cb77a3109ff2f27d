//! What only a run shows of the commands of a tree, and no stored session: a comparison with the plain tree over generated commands,
//! damage, failing calls of the disk, the bytes of blocks, and keeps.
#![tactic(auto)]

#[cfg(test)]
mod compare;
#[cfg(test)]
mod damage;
#[cfg(test)]
mod faults;
#[cfg(test)]
mod lots;
