//! The top call: what the words ask for, done on a host.
#![tactic(auto)]

mod format;
mod intake;
mod laws;
mod serve;
mod session;
mod top;
mod words;

pub use laws::broken_cubes_stay_broken;
pub use top::run;
pub use words::image_of;
