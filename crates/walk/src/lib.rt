// The walk of an image: every entry and record that check meets, judged in order, and every reference that they make.
#![tactic(auto)]

mod judging;
mod kinds;
mod places;

pub use judging::walk;
pub use kinds::Kind;
pub use places::{block_at, l1_entries, l2_at};
