// Stores and disks of any kind behind one type, so that what is written over them is written once.
#![tactic(auto)]

mod any_store;
mod base_disk;
mod lists;

pub use any_store::AnyStore;
pub use base_disk::BaseDisk;
pub use lists::{BLANK, Lists, Space, bytes_of};
