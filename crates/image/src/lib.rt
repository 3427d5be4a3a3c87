// Images: a store with a header, mounted over a backing disk.
#![tactic(auto)]

mod as_disk;
mod mount;
mod peeking;

pub use mount::{Mount, judge_room, judge_sector};
