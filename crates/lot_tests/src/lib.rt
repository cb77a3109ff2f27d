//! What only a run shows of lots, keeps, write sets and the pool: that their calls succeed, and their values on worked blocks.
#![tactic(auto)]

#[cfg(test)]
mod ram;
#[cfg(test)]
mod sets;
#[cfg(test)]
mod tests;
