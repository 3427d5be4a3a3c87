// The map: a word for each guest cluster, so that a reader need not walk the tables.
ghost use Rattle.std.specs.Prelude.{◌≡◌, length};
ghost use Rattle.fault.specs.Outcomes.{each, Gives};
ghost use Rattle.runs.specs.Words.{word_of as word_saying};
ghost use Rattle.mapping.specs.Maps.{word_of, word_in, words_of, map_id_judged, table_for, map_outcome};
ghost use Rattle.guest.specs.Shown.{guest_entry};

use disk::Disk;
use fault::{Fault, Layer, Reason};
use format::{Entry, Numbers};
use guest::{entry_of, guest_clusters};
use image::{Mount, judge_room};
use runs::Kind;
use snapshot::table_of;
use store::Store;

fn kind_of(n: Numbers, e: Entry) -> Kind
    ensures value { word_saying result ≡ word_of n e }
{
    if e.zero {
        return Kind::Zeros;
    }
    let Some(at) = e.offset else {
        return Kind::Empty;
    };
    // a word holds no host cluster of 2^30 or more, and a good image has none
    Kind::Data(u32::try_from(at / n.cluster_size()).unwrap_or(u32::MAX))
}

// What the word of a guest cluster says, whose entry was judged good.
fn kind_at<S: Store>(s: &S, n: Numbers, l1: u64, cluster: u64) -> Kind
    ensures value { word_saying result ≡ word_in n (guest_entry n (S.Store.bytes s.now) l1 cluster) }
{
    entry_of(s, n, l1, cluster).map_or(Kind::Empty, |e| kind_of(n, e))
}

fn fill_words<S: Store>(s: &S, n: Numbers, l1: u64, words: &mut [u32])
    ensures after { words.new ≡ words_of n (S.Store.bytes s.now) l1 (length words.old) }
{
    for (g, w) in words.iter_mut().enumerate() {
        *w = u32::from(kind_at(s, n, l1, g as u64));
    }
}

// All entries are judged before the first word is written, since a refusal leaves the list as it was.
fn judge_entries<S: Store>(s: &S, n: Numbers, l1: u64, clusters: u64) -> Result<(), Fault>
    ensures value { result ≡ each (guest_entry n (S.Store.bytes s.now) l1) 0 clusters }
{
    for g in 0..clusters {
        entry_of(s, n, l1, g)?;
    }
    Ok(())
}

fn judge_map_id(id: &[u8]) -> Result<(), Fault>
    ensures value { result ≡ map_id_judged id.now }
{
    Layer::Call.demand(id.len() <= 16, Reason::BadId, 0)
}

fn table_for<S: Store>(s: &S, n: Numbers, id: &[u8]) -> Result<u64, Fault>
    ensures value { result ≡ table_for n (S.Store.bytes s.now) id.now }
{
    if id.is_empty() {
        return Ok(n.l1);
    }
    table_of(s, n, id)
}

// Fills the list with the map of the live disk (the empty id) or of a snapshot.
pub fn map<S: Store, B: Disk>(m: &Mount<S, B>, id: &[u8], words: &mut [u32]) -> Result<(), Fault>
    ensures outcome { Gives result (map_outcome m.now.header (S.Store.bytes m.now.store) id.now words.old) words.old words.new }
{
    let n = m.header?;
    judge_map_id(id)?;
    let clusters = guest_clusters(n);
    judge_room(words.len(), clusters)?;
    let l1 = table_for(&m.store, n, id)?;
    judge_entries(&m.store, n, l1, clusters)?;
    fill_words(&m.store, n, l1, &mut words[0..clusters as usize]);
    Ok(())
}
