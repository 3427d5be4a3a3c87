// Snapshots: their records in the snapshot table, judged one by one and all together.
#![tactic(auto)]

mod all;
mod records;

pub use all::{Records, judge_id, judge_records, table_of};
pub use records::{Head, Snapshot, judge_record};
