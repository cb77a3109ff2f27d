//! The blocks of an image: what each byte means, read and written.
#![tactic(auto)]

mod header;
mod sub;
mod superblock;

pub use header::{
    Header, gate_is_on, read_header, read_system_header, write_gate, write_header,
    write_system_header,
};
pub use sub::{SubSuper, fresh_group, read_sub, write_sub};
pub use superblock::{LayoutFault, Super, fresh_block, read_super, total, write_super};
