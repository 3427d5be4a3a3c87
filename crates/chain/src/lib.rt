// A chain of images as one disk: layers over a base disk, as many as there are, each answering as a mount over the next would.
#![tactic(auto)]

mod as_disk;
mod layers;

pub use as_disk::Chain;
pub use layers::Layer;
