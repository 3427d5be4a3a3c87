// The refcount table: its blocks, judged, and the counts in them.
ghost use Rattle.std.specs.Prelude.{◌≡◌, ◌^◌, ◌≤◌};
ghost use Rattle.tables.specs.Refcounts.{per_block, blocks as blocks_of, block_place, block_entry, block_at, count_in, count as count_of};

use fault::{Fault, Layer, Reason};
use format::{Numbers, entry_place, leads};
use store::{Store, read_number};

// The counts of a block.
pub fn block_counts(n: Numbers) -> u64
    ensures value { result ≡ per_block n }
    ensures least { 256 ≤ result }
    ensures most { result ≤ 2 ^ 20 }
{
    n.cluster_size() / 2
}

// The entries of the refcount table.
pub fn blocks(n: Numbers) -> u32
    ensures value { result ≡ blocks_of n }
    ensures most { result ≤ 2 ^ 24 }
{
    n.table_clusters() * n.table_entries() as u32
}

// Judges an entry of the refcount table that stands at `place` of a store of this length, and says where it leads.
pub fn judge_block(n: Numbers, length: u64, place: u64, word: u64) -> Result<Option<u64>, Fault>
    ensures value { result ≡ block_entry n length place word }
{
    let block = leads(word);
    let placed = block.is_none_or(|b| n.table_good(length, b, 1));
    Layer::Tables.demand(placed, Reason::BadEntry, place)?;
    Ok(block)
}

// Where the entry of a block stands.
pub fn block_place(n: Numbers, block: u64) -> u64
    ensures value { result ≡ block_place n block }
{
    entry_place(n.refcounts, block)
}

// Where the entry of a block leads as it stands; past the table's reach there is no block.
pub fn block_at<S: Store>(s: &S, n: Numbers, block: u64) -> Result<Option<u64>, Fault>
    ensures value { result ≡ block_at n (S.Store.bytes s.now) block }
{
    if block < blocks(n) as u64 {
        let word = read_number(s, block_place(n, block))?;
        Ok(leads(word))
    } else {
        Ok(None)
    }
}

// The count of a host cluster, through its block.
pub fn count_in<S: Store>(s: &S, n: Numbers, host: u64) -> Result<u16, Fault>
    ensures value { result ≡ count_in n (S.Store.bytes s.now) host }
{
    match block_at(s, n, host / block_counts(n))? {
        Some(block) => read_number(s, block.saturating_add(host % block_counts(n) * 2)),
        None => Ok(0),
    }
}

// The same where nothing refuses, as in a table that was judged good.
pub fn count<S: Store>(s: &S, n: Numbers, host: u64) -> u16
    ensures value { result ≡ count_of n (S.Store.bytes s.now) host }
{
    count_in(s, n, host).unwrap_or(0)
}
