// Text of calls: the words of a line, the values that words spell, and the call that they make.
#![tactic(auto)]

mod calls;
mod values;
mod verbs;
mod words;

pub use calls::{Call, call_of};
