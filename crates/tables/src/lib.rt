// The refcount table of an image: what its entries say, judged, and the counts.
#![tactic(auto)]

mod refcounts;

pub use refcounts::{block_at, block_counts, block_place, blocks, count, count_in, judge_block};
