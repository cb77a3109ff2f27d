//! The text of replies.
#![tactic(auto)]

mod closing;
mod out;
pub mod read_back;
mod reply;

pub use closing::{Closing, read_closing};
pub use out::Out;
pub use reply::write_reply;
