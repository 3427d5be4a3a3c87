// Counts past the store's end, in every block that the refcount table names.
ghost use Rattle.std.specs.Prelude.{◌≡◌, ◌^◌, ◌<◌, ◌≤◌};
ghost use Rattle.tables.specs.Refcounts.{per_block};
ghost use Rattle.walk.specs.References.{block_at};
ghost use Rattle.image_check.specs.Totals.{clusters_of, past as past_by, past_in, leaked_past, one, sum};

use format::Numbers;
use store::{Store, read_number};
use tables::{block_counts, blocks};
use walk::block_at;

// The host clusters of a store.
pub(crate) fn clusters<S: Store>(s: &S, n: Numbers) -> u64
    ensures value { result ≡ clusters_of n (S.Store.bytes s.now) }
    ensures most { result ≤ 2 ^ 55 }
{
    n.clusters_in(s.length())
}

// Whether the j-th count of the i-th block, which lies at `block`, is one past the end.
fn past<S: Store>(s: &S, n: Numbers, i: u32, block: u64, j: u64) -> bool
    requires { j < per_block n }
    ensures value { result ≡ past_by n (S.Store.bytes s.now) i block j }
{
    clusters(s, n) <= i as u64 * block_counts(n) + j
        && read_number::<u16, S>(s, block.saturating_add(j * 2)).unwrap_or(0) != 0
}

fn past_in<S: Store>(s: &S, n: Numbers, i: u32, block: u64) -> u64
    ensures value { result ≡ sum (λ j. one (past_by n (S.Store.bytes s.now) i block j)) 0 (per_block n) }
{
    (0..block_counts(n))
        .map(|j| u64::from(past(s, n, i, block, j)))
        .sum()
}

fn past_named<S: Store>(s: &S, n: Numbers, i: u32) -> u64
    ensures value { result ≡ past_in n (S.Store.bytes s.now) i (block_at n (S.Store.bytes s.now) i) }
{
    match block_at(s, n, i as u64) {
        Ok(Some(block)) => past_in(s, n, i, block),
        Ok(None) | Err(_) => 0,
    }
}

pub(crate) fn past_end<S: Store>(s: &S, n: Numbers) -> u64
    ensures value { result ≡ leaked_past n (S.Store.bytes s.now) }
{
    (0..blocks(n)).map(|i| past_named(s, n, i)).sum()
}
