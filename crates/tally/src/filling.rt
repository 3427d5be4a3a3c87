// The walk that counts: each reference is noted in the word of its cluster. All entries were judged good before.
#![tactic(auto, using(crate::proofs::Touched::gather_more))]

ghost use Rattle.std.specs.Prelude.{◌≡◌, ◌+◌, ◌*◌, ◌^◌, ◌≤◌, [], ◌∷◌};
ghost use Rattle.format.specs.Clusters.{per_table};
ghost use Rattle.walk.specs.References.{gather, named, l2_at, entry_refs, l2_refs, branch_refs, tree_refs, table_refs, block_at, named_block, block_refs, record_refs};
ghost use Rattle.walk.specs.declared.kinds.Kind.TheVariants.{RefcountTable};
ghost use Rattle.tally.specs.Filling.{Pass, Note, Forget, word_after, touched, all_touched, walked, all_walked, filled};

use crate::words::{forget, note};
use format::{Entry, Numbers};
use guest::l1_at;
use snapshot::Snapshot;
use store::Store;
use tables::blocks;
use walk::{Kind, block_at, l1_entries, l2_at};

// What a pass over a tree does with the word of each reference.
trait Step {
    ghost pass: { Pass };

    fn after(word: u32, kind: Kind) -> u32
        ensures value { result ≡ word_after pass kind word };
}

struct Noting;

struct Forgetting;

impl Step for Noting {
    ghost pass = { Note };

    fn after(word: u32, kind: Kind) -> u32 {
        note(word, kind)
    }
}

impl Step for Forgetting {
    ghost pass = { Forget };

    fn after(word: u32, _kind: Kind) -> u32 {
        forget(word)
    }
}

// One reference of a kind to a host cluster; one past the list has no word.
fn touch_host<P: Step>(kind: Kind, host: u64, words: &mut [u32])
    ensures after { words.new ≡ touched P.pass (record { kind = kind; host = host }) words.old }
{
    let i = host as usize;
    if i < words.len() {
        words[i] = P::after(words[i], kind);
    }
}

fn touch<P: Step>(n: Numbers, kind: Kind, offset: u64, words: &mut [u32])
    ensures after { words.new ≡ touched P.pass (named n kind offset) words.old }
{
    touch_host::<P>(kind, offset / n.cluster_size(), words);
}

fn touch_entry<P: Step, S: Store>(s: &S, n: Numbers, l2: u64, g: u64, words: &mut [u32])
    ensures after { words.new ≡ all_touched P.pass (entry_refs n (l2_at n (S.Store.bytes s.now) l2 g)) words.old }
{
    if let Ok(
        Entry {
            offset: Some(at),
            ..
        },
    ) = l2_at(s, n, l2, g)
    {
        touch::<P>(n, Kind::Data, at, words);
    }
}

// The L2 table at `l2`, which the i-th L1 entry leads to.
fn touch_l2<P: Step, S: Store>(s: &S, n: Numbers, l2: u64, i: u32, words: &mut [u32])
    ensures after { words.new ≡ all_touched P.pass (l2_refs n (S.Store.bytes s.now) l2 (i * per_table n)) words.old }
{
    let under = n.clusters_under(i);
    for g in under.start..under.end {
        touch_entry::<P, _>(s, n, l2, g, words);
    }
}

fn touch_branch<P: Step, S: Store>(s: &S, n: Numbers, l1: u64, i: u32, words: &mut [u32])
    ensures after { words.new ≡ all_touched P.pass (branch_refs n (S.Store.bytes s.now) l1 i) words.old }
{
    if let Ok(
        Entry {
            offset: Some(l2),
            ..
        },
    ) = l1_at(s, n, l1, i as u64)
    {
        touch::<P>(n, Kind::L2, l2, words);
        touch_l2::<P, _>(s, n, l2, i, words);
    }
}

fn touch_tree<P: Step, S: Store>(s: &S, n: Numbers, l1: u64, words: &mut [u32])
    ensures after { words.new ≡ all_touched P.pass (tree_refs n (S.Store.bytes s.now) l1) words.old }
{
    for i in 0..l1_entries(n) {
        touch_branch::<P, _>(s, n, l1, i, words);
    }
}

// One L1 table: itself, what it leads to, and then the marks of its walk taken back.
fn walk_table<S: Store>(s: &S, n: Numbers, kind: Kind, l1: u64, words: &mut [u32])
    ensures after { words.new ≡ walked n (S.Store.bytes s.now) kind l1 words.old }
{
    touch::<Noting>(n, kind, l1, words);
    touch_tree::<Noting, _>(s, n, l1, words);
    touch_tree::<Forgetting, _>(s, n, l1, words);
}

fn walk_tables<S: Store>(s: &S, n: Numbers, list: &[Snapshot], words: &mut [u32])
    ensures after { words.new ≡ all_walked n (S.Store.bytes s.now) list.now words.old }
{
    for r in list {
        walk_table(s, n, Kind::SnapshotL1, r.head.l1, words);
    }
}

fn touch_blocks<S: Store>(s: &S, n: Numbers, words: &mut [u32])
    ensures after { words.new ≡ all_touched Note (block_refs n (S.Store.bytes s.now)) words.old }
{
    for i in 0..blocks(n) {
        touch_block(s, n, i as u64, words);
    }
}

fn touch_block<S: Store>(s: &S, n: Numbers, i: u64, words: &mut [u32])
    ensures after { words.new ≡ all_touched Note (named_block n (block_at n (S.Store.bytes s.now) i)) words.old }
{
    if let Ok(Some(block)) = block_at(s, n, i) {
        touch::<Noting>(n, Kind::Block, block, words);
    }
}

// So many clusters of the refcount table in a row.
fn touch_row(first: u64, count: u64, words: &mut [u32])
    requires first_bound { first ≤ 2 ^ 55 }
    requires count_bound { count ≤ 64 }
    ensures after { words.new ≡ all_touched Note (gather (λ i. record { kind = RefcountTable; host = first + i } ∷ []) 0 count) words.old }
{
    for i in 0..count {
        touch_host::<Noting>(Kind::RefcountTable, first + i, words);
    }
}

fn touch_table(n: Numbers, words: &mut [u32])
    ensures after { words.new ≡ all_touched Note (table_refs n) words.old }
{
    touch_row(
        n.refcounts / n.cluster_size(),
        n.table_clusters() as u64,
        words,
    );
}

fn touch_records(n: Numbers, words: &mut [u32])
    ensures after { words.new ≡ all_touched Note (record_refs n) words.old }
{
    if n.snapshots != 0 {
        touch::<Noting>(n, Kind::SnapshotTable, n.records, words);
    }
}

// All references of an image whose walk is good, with the marks of clusters that one table reaches more than once.
pub fn fill<S: Store>(s: &S, n: Numbers, list: &[Snapshot], words: &mut [u32])
    ensures after { words.new ≡ filled n (S.Store.bytes s.now) list.now words.old }
{
    touch::<Noting>(n, Kind::Header, 0, words);
    touch_table(n, words);
    touch_blocks(s, n, words);
    walk_table(s, n, Kind::LiveL1, n.l1, words);
    touch_records(n, words);
    walk_tables(s, n, list, words);
}
