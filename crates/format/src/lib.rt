// What an image's bytes mean: the header's numbers and the entries of its tables, judged.
#![tactic(auto)]

mod entries;
mod files;
mod header;
mod numbers;

pub use entries::{Entry, entry_place, judge_l1, judge_l2, judge_plain, leads};
pub use files::filled_length;
pub use header::{judge, judge_store};
pub use numbers::Numbers;
