// Image files opened with the files that they lie on: read whole, layer by layer, down to a raw file or none.
#![tactic(auto)]

mod links;
mod opened;
mod reads;
mod stop;

pub use links::{LONGEST, Link};
pub use opened::{How, Opened, Under, load_alone, open, refused};
pub use reads::{Front, failed, read_front, read_whole};
pub use stop::Stop;
