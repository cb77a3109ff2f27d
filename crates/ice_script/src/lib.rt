//! Lines from bytes, and commands from lines.
#![tactic(auto)]

mod command;
mod reader;
mod token;

pub use reader::LineReader;
pub use token::{read_number, split_token};
