// The entries that the walk meets, read and judged.
ghost use Rattle.std.specs.Prelude.{◌≡◌, ◌^◌, ◌≤◌};
ghost use Rattle.walk.specs.References.{l2_judged_at, l2_at, block_at, entries_of};

use fault::{Fault, Layer, Reason};
use format::{Entry, Numbers, judge_l2, judge_plain};
use guest::{guest_clusters, l2_place};
use store::{Store, read_number};
use tables::{block_place, judge_block};

// The entries of an L1 table that count; a good header has no more than fill a cluster.
pub fn l1_entries(n: Numbers) -> u32
    ensures value { result ≡ entries_of n }
    ensures most { result ≤ 2 ^ 18 }
{
    n.entries.min(n.table_entries() as u32)
}

// Past the guest's end an entry must be 0; a compressed one is refused as such there too.
fn judge_walked(
    n: Numbers,
    length: u64,
    place: u64,
    cluster: u64,
    word: u64,
) -> Result<Entry, Fault>
    ensures value { result ≡ l2_judged_at n length place cluster word }
{
    if cluster < guest_clusters(n) {
        return judge_l2(n, length, place, word);
    }
    judge_plain(place, word)?;
    Layer::Tables.demand(word == 0, Reason::BadEntry, place)?;
    Ok(Entry::EMPTY)
}

pub fn l2_at<S: Store>(s: &S, n: Numbers, l2: u64, cluster: u64) -> Result<Entry, Fault>
    ensures value { result ≡ l2_at n (S.Store.bytes s.now) l2 cluster }
{
    let place = l2_place(n, l2, cluster);
    let word = read_number(s, place)?;
    judge_walked(n, s.length(), place, cluster, word)
}

pub fn block_at<S: Store>(s: &S, n: Numbers, i: u64) -> Result<Option<u64>, Fault>
    ensures value { result ≡ block_at n (S.Store.bytes s.now) i }
{
    let place = block_place(n, i);
    let word = read_number(s, place)?;
    judge_block(n, s.length(), place, word)
}
