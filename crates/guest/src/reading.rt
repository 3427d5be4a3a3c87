// What the tables show: from a guest sector to its bytes.
ghost use Rattle.std.specs.Prelude.{◌≡◌, ◌||◌, ◌==◌, nat_le};
ghost use Rattle.byte_lists.specs.Runs.{zeros};
ghost use Rattle.fault.specs.Outcomes.{Gives};
ghost use Rattle.guest.specs.Shown.{guest_sectors, mount_sectors, guest_clusters, l1_at, l2_place, l2_under, guest_entry, under, entry_shows, shows};

use disk::Disk;
use fault::Fault;
use format::{Entry, Numbers, entry_place, judge_l1, judge_l2};
use store::{Store, read_number};

// The guest's sectors; a size of 64 bits has at most 2^55.
pub fn sectors_of(n: Numbers) -> u64
    ensures value { result ≡ guest_sectors n }
{
    n.sectors().min(1 << 55)
}

// The sectors of a mount as a disk: with a bad header all that a disk can have, so that each gives the fault.
pub fn mount_sectors(header: Result<Numbers, Fault>) -> u64
    ensures value { result ≡ mount_sectors header }
{
    header.map_or(1 << 55, sectors_of)
}

// The guest's clusters, a part one at the end among them.
pub fn guest_clusters(n: Numbers) -> u64
    ensures value { result ≡ guest_clusters n }
{
    n.size.div_ceil(n.cluster_size())
}

// An entry of the L1 table at `l1`.
pub fn l1_at<S: Store>(s: &S, n: Numbers, l1: u64, i: u64) -> Result<Entry, Fault>
    ensures value { result ≡ l1_at n (S.Store.bytes s.now) l1 i }
{
    let place = entry_place(l1, i);
    let word = read_number(s, place)?;
    judge_l1(n, s.length(), place, word)
}

// Where a guest cluster's entry of the L2 table at `l2` stands.
pub fn l2_place(n: Numbers, l2: u64, cluster: u64) -> u64
    ensures value { result ≡ l2_place n l2 cluster }
{
    entry_place(l2, cluster % n.table_entries())
}

// The entry of a guest cluster in the L2 table, if there is one.
fn entry_under<S: Store>(s: &S, n: Numbers, cluster: u64, l2: Option<u64>) -> Result<Entry, Fault>
    ensures value { result ≡ l2_under n (S.Store.bytes s.now) cluster l2 }
{
    let Some(l2) = l2 else {
        return Ok(Entry::EMPTY);
    };
    let place = l2_place(n, l2, cluster);
    let word = read_number(s, place)?;
    judge_l2(n, s.length(), place, word)
}

// The entry of a guest cluster under the L1 table at `l1`.
pub fn entry_of<S: Store>(s: &S, n: Numbers, l1: u64, cluster: u64) -> Result<Entry, Fault>
    ensures value { result ≡ guest_entry n (S.Store.bytes s.now) l1 cluster }
{
    let e = l1_at(s, n, l1, cluster / n.table_entries())?;
    entry_under(s, n, cluster, e.offset)
}

// A sector of zeros.
pub fn clear(out: &mut [u8; 512])
    ensures after { out.new ≡ zeros 512 }
{
    out.fill(0);
}

// Whether nothing lies under an empty entry; without a backing name the backing disk is not asked anything.
fn nothing_under<B: Disk>(n: Numbers, backing: &B, sector: u64) -> bool
    ensures value { result ≡ (n.name == 0 || nat_le (B.Disk.reading backing.now).sectors sector) }
{
    !n.has_backing() || backing.sectors() <= sector
}

// What shows through an empty entry.
pub fn read_under<B: Disk>(
    n: Numbers,
    backing: &B,
    sector: u64,
    out: &mut [u8; 512],
) -> Result<(), Fault>
    ensures outcome { Gives result (under n (B.Disk.reading backing.now) sector) out.old out.new }
{
    if nothing_under(n, backing, sector) {
        clear(out);
        return Ok(());
    }
    backing.read_sector(sector, out).map_err(Fault::deeper)
}

// The sector under an entry: marked zero, data, or what lies under it.
pub fn read_entry<S: Store, B: Disk>(
    s: &S,
    backing: &B,
    n: Numbers,
    e: Entry,
    sector: u64,
    out: &mut [u8; 512],
) -> Result<(), Fault>
    ensures outcome { Gives result (entry_shows n (S.Store.bytes s.now) (B.Disk.reading backing.now) e sector) out.old out.new }
{
    if e.zero {
        clear(out);
        return Ok(());
    }
    let Some(at) = e.offset else {
        return read_under(n, backing, sector, out);
    };
    let place = at.saturating_add(sector % n.cluster_sectors() * 512);
    s.read(place, out)
}

// A guest sector under the L1 table at `table`.
pub fn read_guest<S: Store, B: Disk>(
    s: &S,
    backing: &B,
    n: Numbers,
    table: u64,
    sector: u64,
    out: &mut [u8; 512],
) -> Result<(), Fault>
    ensures outcome { Gives result (shows n (S.Store.bytes s.now) (B.Disk.reading backing.now) table sector) out.old out.new }
{
    let e = entry_of(s, n, table, sector / n.cluster_sectors())?;
    read_entry(s, backing, n, e, sector, out)
}
