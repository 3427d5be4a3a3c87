// Snapshot records: what a record's bytes say, judged.
ghost use Rattle.std.specs.Prelude.{◌≡◌, ◌+◌, ◌-◌, ◌^◌, ◌≤◌, true, length, IfOk};
ghost use Rattle.byte_lists.specs.Runs.{run};
ghost use Rattle.snapshot.specs.Records.{head_of, body, size as size_of, extra_good, sizes_good, head_good, extra_says, all_zero, rest_good, id_in, head_in, record_place, record_in, id_of};

use byte_lists::{number_at, within};
use fault::{Fault, Layer, Reason};
use format::Numbers;
use store::Store;

// The numbers in a record's first 40 bytes that are judged.
#[derive(Clone, Copy, Default, PartialEq, Eq, Debug)]
pub struct Head {
    pub l1: u64,
    pub entries: u32,
    pub id: u16,
    pub name: u16,
    pub state: u32,
    pub extra: u32,
}

// A good record: where it begins, the numbers that it begins with, and its id.
#[derive(Clone, Copy, Default, PartialEq, Eq, Debug)]
pub struct Snapshot {
    pub place: u64,
    pub head: Head,
    // the id, filled up with zeros; its head says how many bytes it has
    pub id: [u8; 16],
}

impl Snapshot {
    // The bytes of its id.
    pub fn id(&self) -> &[u8]
        ensures value { result.now ≡ id_of self.now }
    {
        &self.id[..(self.head.id as usize).min(16)]
    }
}

fn read_head(r: &[u8; 40]) -> Head
    ensures value { result ≡ head_of r.now }
{
    Head {
        l1: number_at(r, 0).unwrap(),
        entries: number_at(r, 8).unwrap(),
        id: number_at(r, 12).unwrap(),
        name: number_at(r, 14).unwrap(),
        state: number_at(r, 32).unwrap(),
        extra: number_at(r, 36).unwrap(),
    }
}

impl Head {
    fn body(self) -> u64
        ensures value { result ≡ body self }
    {
        40 + self.extra as u64 + self.id as u64 + self.name as u64
    }

    // The bytes of the record, padding and all.
    pub fn size(self) -> u64
        ensures value { result ≡ size_of self }
    {
        self.body().next_multiple_of(8)
    }

    fn extra_good(self, n: Numbers) -> bool
        ensures value { result ≡ extra_good n self }
    {
        matches!(self.extra, 16..=1024) || (n.version == 2 && self.extra == 0)
    }

    fn sizes_good(self, n: Numbers) -> bool
        ensures value { result ≡ sizes_good n self }
    {
        matches!(self.id, 1..=16) && self.name <= 64 && self.extra_good(n)
    }

    fn head_good(self, n: Numbers, length: u64) -> bool
        ensures value { result ≡ head_good n length self }
    {
        n.table_good(length, self.l1, 1)
            && self.entries == n.entries
            && self.state == 0
            && self.sizes_good(n)
    }
}

// A record whose head is good for the header's numbers, with its bytes, padding and all.
#[derive(Clone, Copy)]
struct Record<'a> {
    n: Numbers,
    head: Head,
    bytes: &'a [u8],
    ghost whole: { length bytes.now ≡ size_of head },
    ghost extra: { extra_good n head ≡ true },
    ghost id: { head.id ≤ 16 },
}

impl Record<'_> {
    // No machine state, and the header's guest size.
    fn extra_says(&self) -> bool
        ensures value { result ≡ extra_says self.now.n self.now.head self.now.bytes.now }
    {
        self.head.extra == 0
            || (number_at::<u64>(self.bytes, 40) == Some(0)
                && number_at(self.bytes, 48) == Some(self.n.size))
    }

    fn padding_zero(&self) -> bool
        ensures value { result ≡ all_zero (run self.now.bytes.now (body self.now.head) (size_of self.now.head - body self.now.head)) }
    {
        let body = self.head.body() as usize;
        self.bytes[body..self.bytes.len()].iter().all(|b| *b == 0)
    }

    // Whether the whole record says what it must besides.
    fn rest_good(&self) -> bool
        ensures value { result ≡ rest_good self.now.n self.now.head self.now.bytes.now }
    {
        self.extra_says() && self.padding_zero()
    }

    // The id, filled up with zeros.
    fn id(&self) -> [u8; 16]
        ensures value { result ≡ id_in self.now.head self.now.bytes.now }
    {
        let at = 40 + self.head.extra as usize;
        let letters = self.head.id as usize;
        let mut id = [0u8; 16];
        id[0..letters].copy_from_slice(&self.bytes[at..at + letters]);
        id
    }
}

// The first 40 bytes of the record that begins at `at` of the snapshot table and at `place` of the store.
fn head_at<S: Store>(s: &S, n: Numbers, place: u64, at: u64) -> Result<Head, Fault>
    ensures value { result ≡ head_in n (S.Store.bytes s.now) place at }
    ensures sizes { IfOk result (λ h. (size_of h ≤ 1144) × (extra_good n h ≡ true) × (h.id ≤ 16) × (at + size_of h ≤ 2 ^ 21)) }
{
    Layer::Tables.demand(within(at, 40, n.cluster_size()), Reason::BadEntry, place)?;
    let mut bytes = [0u8; 40];
    s.read(place, &mut bytes)?;
    let h = read_head(&bytes);
    Layer::Tables.demand(h.head_good(n, s.length()), Reason::BadEntry, place)?;
    Layer::Tables.demand(
        within(at, h.size(), n.cluster_size()),
        Reason::BadEntry,
        place,
    )?;
    Ok(h)
}

fn record_place(n: Numbers, at: u64) -> u64
    ensures value { result ≡ record_place n at }
{
    n.records.saturating_add(at)
}

// The record that begins at `at` of the snapshot table, judged.
pub fn judge_record<S: Store>(s: &S, n: Numbers, at: u64) -> Result<Snapshot, Fault>
    ensures value { result ≡ record_in n (S.Store.bytes s.now) at }
    ensures ends { IfOk result (λ t. at + size_of t.head ≤ 2 ^ 21) }
{
    let place = record_place(n, at);
    let head = head_at(s, n, place, at)?;
    let mut room = [0u8; 1144];
    let bytes = &mut room[0..head.size() as usize];
    s.read(place, bytes)?;
    let r = Record { n, head, bytes };
    Layer::Tables.demand(r.rest_good(), Reason::BadEntry, place)?;
    Ok(Snapshot {
        place,
        head,
        id: r.id(),
    })
}
