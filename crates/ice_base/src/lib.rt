//! Blocks, faults, and the outside: the disk, its host, and the words of a command line.
#![tactic(auto)]

mod disk;
mod fault;
mod field;
mod form;
mod host;
mod keep;
mod lot;
mod pool;
mod reach;
mod status;
mod view;
mod words;

pub use disk::{Block, Disk, DiskFault};
pub use fault::{BlockFault, OpFault, Rule};
pub use field::{read_u32, read_u64, write_u32, write_u64};
pub use form::{Form, FormOne};
pub use host::{Host, SinkFault, SourceFault, give_all};
pub use keep::Keep;
pub use lot::{BLOCKS_AT, DONE_AT, Lot, NODES_AT, SUB};
pub use pool::Pool;
pub use reach::{fetch, store};
pub use status::{Image, ImageFault, Status};
pub use view::View;
pub use words::Words;
