// The map of a guest disk, live or a snapshot's, and copying the disk out by it.
#![tactic(auto)]

mod copies;
mod maps;

pub use copies::copy_out;
pub use maps::map;
