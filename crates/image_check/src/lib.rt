// Check: the tally of an image held against its stored counts and copied flags.
#![tactic(auto)]

mod call;
mod flags;
mod past;
mod totals;

pub use call::check;
