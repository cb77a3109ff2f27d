//! A slow tree of files and directories that answers tree commands, for comparison in tests.
//!
//! Its answers are the fourteen refusals and the values of accepted commands, written down a second time over a flat list of paths.
//! No clause ties them to the model: tests compare them with what other code answers.
#![tactic(auto)]

mod command;
mod cost;
mod next;
mod text;
mod tree;

pub use command::{PlainEntry, PlainReply, answer};
pub use cost::{PlainForm, form_one, form_two, map_cost};
pub use tree::PlainTree;
