//! What only a run shows of the hosts in memory: that calls succeed, and the worked bytes of crashes.
#![tactic(auto)]

#[cfg(test)]
mod tests;
