//! What only a run shows of names, paths, lines, replies and the plain tree: exact texts, limits and the order of refusals.
#![tactic(auto)]

#[cfg(test)]
mod lines;
#[cfg(test)]
mod paths;
#[cfg(test)]
mod plain;
#[cfg(test)]
mod replies;
#[cfg(test)]
mod trees;
