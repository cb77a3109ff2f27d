//! What only a run shows of the headline: two sessions over hosts in memory with a crash and damage to one cube between them.
#![tactic(auto)]

#[cfg(test)]
mod hosts;
#[cfg(test)]
mod tests;
