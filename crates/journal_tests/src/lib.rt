//! What only a run shows of journals: that the calls succeed, how many blocks they read, and their values on worked bytes.
#![tactic(auto)]

#[cfg(test)]
mod commits;
#[cfg(test)]
mod tests;
