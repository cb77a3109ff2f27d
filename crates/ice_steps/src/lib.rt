//! How one change of a lot's blocks moves the tree that they hold: lemmas for the layer of trees. It has no code of its own.
#![tactic(auto)]
