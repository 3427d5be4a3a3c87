// Entries of L1 and L2 tables: what the 64 bits say, judged.
ghost use Rattle.std.specs.Prelude.{◌≡◌, ◌+◌, ◌*◌, not};
ghost use Rattle.store.specs.Words.{held};
ghost use Rattle.fault.specs.declared.Layer.TheVariants.{Tables};
ghost use Rattle.fault.specs.declared.Reason.TheVariants.{Compressed};
ghost use Rattle.fault.specs.Faults.{fault};
ghost use Rattle.fault.specs.Outcomes.{demanded};
ghost use Rattle.format.specs.Entries.{leads, offset_in, copied_in, compressed_in, placed as placed_by, l1_plain, l2_plain, l1_entry, l2_entry};

use crate::numbers::Numbers;
use fault::{Fault, Layer, Reason};

// Where an entry leads, the copied flag, and whether it reads as zeros.
#[derive(Clone, Copy, PartialEq, Eq, Debug)]
pub struct Entry {
    // where the cluster lies that it names
    pub offset: Option<u64>,
    pub copied: bool,
    pub zero: bool,
}

impl Entry {
    // What a table shows where it has nothing.
    pub const EMPTY: Entry = Entry {
        offset: None,
        copied: false,
        zero: false,
    };
}

// Where a number of the format leads; 0 stands for nowhere.
pub fn leads(offset: u64) -> Option<u64>
    ensures value { result ≡ leads offset }
{
    (offset != 0).then_some(offset)
}

// Where the i-th entry of a table stands; a place past 64 bits is past every store.
pub fn entry_place(table: u64, i: u64) -> u64
    ensures value { result ≡ held (table + i * 8) }
{
    table.saturating_add(i.saturating_mul(8))
}

const ABOVE_OFFSET: u64 = 1 << 56;

fn offset_in(word: u64) -> Option<u64>
    ensures value { result ≡ offset_in word }
{
    leads(word % ABOVE_OFFSET / 512 * 512)
}

fn copied_in(word: u64) -> bool
    ensures value { result ≡ copied_in word }
{
    word / (1 << 63) % 2 == 1
}

// Without an offset there is no copied flag; an offset is at a whole cluster of the store.
fn placed(n: Numbers, length: u64, offset: Option<u64>, copied: bool) -> bool
    ensures value { result ≡ placed_by n length offset copied }
{
    offset.map_or(!copied, |at| n.table_good(length, at, 1))
}

fn plain_l1(word: u64) -> bool
    ensures value { result ≡ l1_plain word }
{
    word % 512 == 0 && word / ABOVE_OFFSET % 128 == 0
}

fn plain_l2(n: Numbers, word: u64) -> bool
    ensures value { result ≡ l2_plain n word }
{
    word % 512 / 2 == 0 && word / ABOVE_OFFSET % 64 == 0 && (n.version == 3 || word % 2 != 1)
}

// Judges an L1 entry that stands at `place` of a store of this length.
pub fn judge_l1(n: Numbers, length: u64, place: u64, word: u64) -> Result<Entry, Fault>
    ensures value { result ≡ l1_entry n length place word }
{
    let offset = offset_in(word);
    let copied = copied_in(word);
    let good = plain_l1(word) && placed(n, length, offset, copied);
    Layer::Tables.demand(good, Reason::BadEntry, place)?;
    Ok(Entry {
        offset,
        copied,
        zero: false,
    })
}

// A compressed L2 entry is refused as such, whatever else is wrong with it.
pub fn judge_plain(place: u64, word: u64) -> Result<(), Fault>
    ensures value { result ≡ demanded (not (compressed_in word)) (fault Compressed Tables place) }
{
    let plain = word / (1 << 62) % 2 != 1;
    Layer::Tables.demand(plain, Reason::Compressed, place)
}

// Judges an L2 entry likewise.
pub fn judge_l2(n: Numbers, length: u64, place: u64, word: u64) -> Result<Entry, Fault>
    ensures value { result ≡ l2_entry n length place word }
{
    judge_plain(place, word)?;
    let offset = offset_in(word);
    let copied = copied_in(word);
    let good = plain_l2(n, word) && placed(n, length, offset, copied);
    Layer::Tables.demand(good, Reason::BadEntry, place)?;
    Ok(Entry {
        offset,
        copied,
        zero: word % 2 == 1,
    })
}
