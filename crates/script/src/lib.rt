// Lists of calls as text: each line is a call, and each call has a record line. docs/CALLS.md has the words.
#![tactic(auto)]

mod disks;
mod images;
mod lines;
mod outcome;
mod run;
mod session;
mod stores;
mod words;

pub use session::Session;
