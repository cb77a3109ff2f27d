//! The owner table: which group belongs to which slot, and in which order.
#![tactic(auto)]

mod gather;
mod marks;
mod owners;
mod promises;

pub use owners::{OwnerFault, Owners};
pub use promises::{groups_belong, groups_of_slots, owners_are_tables, rows_and_groups};
