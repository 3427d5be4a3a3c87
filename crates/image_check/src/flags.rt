// Copied flags in and under the live L1 table that do not say whether the count of their cluster is one.
ghost use Rattle.std.specs.Prelude.{◌≡◌, ◌*◌};
ghost use Rattle.format.specs.Clusters.{per_table};
ghost use Rattle.guest.specs.Shown.{l1_at};
ghost use Rattle.walk.specs.References.{l2_at};
ghost use Rattle.image_check.specs.Totals.{wrong as wrong_by, wrong_in, l2_wrong, under_wrong, branch_wrong, flags as flags_of};

use format::{Entry, Numbers};
use guest::l1_at;
use store::Store;
use tables::count;
use walk::{l1_entries, l2_at};

fn wrong<S: Store>(s: &S, n: Numbers, e: Entry) -> bool
    ensures value { result ≡ wrong_by n (S.Store.bytes s.now) e }
{
    e.offset
        .is_some_and(|at| e.copied != (count(s, n, at / n.cluster_size()) == 1))
}

fn wrong_in<S: Store>(s: &S, n: Numbers, l2: u64, g: u64) -> u64
    ensures value { result ≡ wrong_in n (S.Store.bytes s.now) (l2_at n (S.Store.bytes s.now) l2 g) }
{
    u64::from(l2_at(s, n, l2, g).is_ok_and(|e| wrong(s, n, e)))
}

// Under the L2 table at `l2`, which the i-th L1 entry leads to.
fn l2_wrong<S: Store>(s: &S, n: Numbers, l2: u64, i: u32) -> u64
    ensures value { result ≡ l2_wrong n (S.Store.bytes s.now) l2 (i * per_table n) }
{
    n.clusters_under(i).map(|g| wrong_in(s, n, l2, g)).sum()
}

fn under_wrong<S: Store>(s: &S, n: Numbers, l2: Option<u64>, i: u32) -> u64
    ensures value { result ≡ under_wrong n (S.Store.bytes s.now) i l2 }
{
    l2.map_or(0, |l2| l2_wrong(s, n, l2, i))
}

fn branch_wrong<S: Store>(s: &S, n: Numbers, i: u32) -> u64
    ensures value { result ≡ branch_wrong n (S.Store.bytes s.now) i (l1_at n (S.Store.bytes s.now) n.l1 i) }
{
    let Ok(e) = l1_at(s, n, n.l1, i as u64) else {
        return 0;
    };
    let own = u64::from(wrong(s, n, e));
    own + under_wrong(s, n, e.offset, i)
}

// By path: a table that two live entries name has its entries judged twice.
pub(crate) fn flags<S: Store>(s: &S, n: Numbers) -> u64
    ensures value { result ≡ flags_of n (S.Store.bytes s.now) }
{
    (0..l1_entries(n)).map(|i| branch_wrong(s, n, i)).sum()
}
