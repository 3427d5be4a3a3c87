// Text of the program's, as values: spoiled sectors from a list, names and bytes as lines, the path that a name means.
#![tactic(auto)]

mod lines;
mod paths;
mod spoiled;

pub use lines::{hex_line, shown};
pub use paths::joined;
pub use spoiled::{BadList, spoiled_in};
