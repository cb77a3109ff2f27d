//! What only a run shows of the checker: worked lots, and the rule that is named of each damaged one.
#![tactic(auto)]

#[cfg(test)]
mod large;
#[cfg(test)]
mod lots;
#[cfg(test)]
mod tests;
