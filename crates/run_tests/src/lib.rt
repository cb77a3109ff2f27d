//! Tests that cross crates: whole runs of the program over hosts in memory and over a file.
#![tactic(auto)]

#[cfg(test)]
mod apart;
#[cfg(test)]
mod bytes;
#[cfg(test)]
mod costs;
#[cfg(test)]
mod cubes;
#[cfg(test)]
mod faults;
#[cfg(test)]
mod format;
#[cfg(test)]
mod hosts;
#[cfg(test)]
mod sessions;
#[cfg(test)]
mod tables;
