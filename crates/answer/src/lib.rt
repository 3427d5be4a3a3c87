// What calls answer, and the record line of each.
#![tactic(auto)]

mod answers;
mod digests;
mod records;

pub use answers::Answer;
pub use records::record;
