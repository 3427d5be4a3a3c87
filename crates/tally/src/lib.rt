// The tally of an image's references: a word for each host cluster, filled while the image is walked.
#![tactic(auto)]

mod filling;
mod uses;
mod words;

pub use filling::fill;
pub use uses::Used;
pub use words::{kind_of, references_of, repeated, unmark};
