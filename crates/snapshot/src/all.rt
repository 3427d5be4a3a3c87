// All snapshot records of an image, judged in their order; no two have the same id.
ghost use Rattle.std.specs.Prelude.{◌≡◌, ◌+◌, ◌<◌, ◌≤◌, not, [], ◌∷◌, ◌++◌, length, is_some, IfSome, Ok, Err, MatchResult};
ghost use Rattle.std.specs.Str.{bytes_eq};
ghost use Rattle.snapshot.specs.Records.{id_of, record_good};
ghost use Rattle.snapshot.specs.All.{position, named as named_by, kept as kept_of, records as records_of, id_judged, table};

use crate::records::{Snapshot, judge_record};
use fault::{Fault, Layer, Reason};
use format::Numbers;
use store::Store;

// The records, as many as `count` says, from the front of the list; an image has at most 64.
#[derive(Clone, Copy)]
pub struct Records {
    pub list: [Snapshot; 64],
    pub count: usize,
}

fn same_id(id: &[u8], r: &Snapshot) -> bool
    ensures value { result ≡ bytes_eq id.now (id_of r.now) }
{
    id == r.id()
}

impl Records {
    pub fn kept(&self) -> &[Snapshot]
        ensures value { result.now ≡ kept_of self.now }
        ensures few { length result.now ≤ 64 }
    {
        &self.list[..self.count.min(64)]
    }

    // Where the first record with this id stands.
    pub fn find(&self, id: &[u8]) -> Option<usize>
        ensures value { result ≡ position id.now (kept_of self.now) 0 }
        ensures within { IfSome result (λ i. i < length (kept_of self.now)) }
    {
        self.kept().iter().position(|r| same_id(id, r))
    }

    // The record with this id.
    pub fn named(&self, id: &[u8]) -> Result<Snapshot, Fault>
        ensures value { result ≡ named_by id.now (kept_of self.now) }
    {
        self.kept()
            .iter()
            .find(|r| same_id(id, r))
            .copied()
            .ok_or(Fault::new(Reason::NoSuchId, Layer::Call, 0))
    }

    // One record more.
    fn push(&mut self, r: Snapshot)
        requires { self.old.count < 64 }
        ensures kept { kept_of self.new ≡ kept_of self.old ++ r ∷ [] }
        ensures count { self.new.count ≡ self.old.count + 1 }
    {
        self.list[self.count] = r;
        self.count += 1;
    }

    // A record is bad if an earlier one has its id.
    fn judge_id(&self, r: &Snapshot) -> Result<(), Fault>
        ensures value { result ≡ record_good (not (is_some (position (id_of r.now) (kept_of self.now) 0))) r.now.place }
    {
        let new = self.find(r.id()).is_none();
        Layer::Tables.demand(new, Reason::BadEntry, r.place)
    }
}

// All records of an image.
pub fn judge_records<S: Store>(s: &S, n: Numbers) -> Result<Records, Fault>
    ensures value { MatchResult result (λ all. records_of n (S.Store.bytes s.now) ≡ Ok (kept_of all)) (λ e. records_of n (S.Store.bytes s.now) ≡ Err e) }
{
    let mut all = Records {
        list: [Snapshot::default(); 64],
        count: 0,
    };
    let mut at = 0;
    for i in 0..n.records_kept() {
        let r = judge_record(s, n, at)?;
        all.judge_id(&r)?;
        all.push(r);
        at += r.head.size();
    }
    Ok(all)
}

// An id that a call is given.
pub fn judge_id(id: &[u8]) -> Result<(), Fault>
    ensures value { result ≡ id_judged id.now }
{
    let fits = (1..=16).contains(&id.len());
    Layer::Call.demand(fits, Reason::BadId, 0)
}

// The L1 table of the snapshot with this id, once all records are judged.
pub fn table_of<S: Store>(s: &S, n: Numbers, id: &[u8]) -> Result<u64, Fault>
    ensures value { result ≡ table n (S.Store.bytes s.now) id.now }
{
    let all = judge_records(s, n)?;
    Ok(all.named(id)?.head.l1)
}
