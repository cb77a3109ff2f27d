//! What only a run shows of a cube: that it is made, mounted, synced and unmounted, and what these calls cost.
#![tactic(auto)]

#[cfg(test)]
mod commands;
#[cfg(test)]
mod tests;
