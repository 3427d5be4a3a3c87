// The walk that judges: nothing is counted before all of it is good.
ghost use Rattle.std.specs.Prelude.{◌≡◌, ◌*◌, Ok, Err, MatchResult};
ghost use Rattle.format.specs.Clusters.{per_table};
ghost use Rattle.snapshot.specs.All.{kept};
ghost use Rattle.walk.specs.Walk.{blocks_judged, l2_judged, branch_judged, tree_judged, trees_judged, walk as walk_of};

use crate::places::{block_at, l1_entries, l2_at};
use fault::Fault;
use format::Numbers;
use guest::l1_at;
use snapshot::{Records, Snapshot, judge_records};
use store::Store;
use tables::blocks;

fn judge_blocks<S: Store>(s: &S, n: Numbers) -> Result<(), Fault>
    ensures value { result ≡ blocks_judged n (S.Store.bytes s.now) }
{
    for i in 0..blocks(n) {
        block_at(s, n, i as u64)?;
    }
    Ok(())
}

// The L2 table at `l2`, which the i-th L1 entry leads to.
fn judge_l2_table<S: Store>(s: &S, n: Numbers, l2: u64, i: u32) -> Result<(), Fault>
    ensures value { result ≡ l2_judged n (S.Store.bytes s.now) l2 (i * per_table n) }
{
    let under = n.clusters_under(i);
    for g in under.start..under.end {
        l2_at(s, n, l2, g)?;
    }
    Ok(())
}

fn judge_branch<S: Store>(s: &S, n: Numbers, l1: u64, i: u32) -> Result<(), Fault>
    ensures value { result ≡ branch_judged n (S.Store.bytes s.now) l1 i }
{
    match l1_at(s, n, l1, i as u64)?.offset {
        Some(l2) => judge_l2_table(s, n, l2, i),
        None => Ok(()),
    }
}

fn judge_tree<S: Store>(s: &S, n: Numbers, l1: u64) -> Result<(), Fault>
    ensures value { result ≡ tree_judged n (S.Store.bytes s.now) l1 }
{
    for i in 0..l1_entries(n) {
        judge_branch(s, n, l1, i)?;
    }
    Ok(())
}

fn judge_trees<S: Store>(s: &S, n: Numbers, list: &[Snapshot]) -> Result<(), Fault>
    ensures value { result ≡ trees_judged n (S.Store.bytes s.now) list.now }
{
    for r in list {
        judge_tree(s, n, r.head.l1)?;
    }
    Ok(())
}

// All records of an image whose walk is good.
pub fn walk<S: Store>(s: &S, n: Numbers) -> Result<Records, Fault>
    ensures value { MatchResult result (λ all. walk_of n (S.Store.bytes s.now) ≡ Ok (kept all)) (λ e. walk_of n (S.Store.bytes s.now) ≡ Err e) }
{
    judge_blocks(s, n)?;
    judge_tree(s, n, n.l1)?;
    let all = judge_records(s, n)?;
    judge_trees(s, n, all.kept())?;
    Ok(all)
}
