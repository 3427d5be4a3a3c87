// The split store: two byte lists of the caller's, the second following the first, their front in use.
ghost use Rattle.std.specs.Prelude.{◌≡◌, ◌+◌, ◌++◌, length, take};
ghost use Rattle.byte_lists.specs.Runs.{EachOctet};

use crate::Store;
use crate::runs::{clear_run, copy_run, judge_run, replace_run};
use fault::{Fault, Layer, Reason};

#[derive(Drop)]
pub struct SplitStore<'a> {
    front: &'a mut [u8],
    back: &'a mut [u8],
    used: usize,
    ghost front_octets: { EachOctet front.now },
    ghost back_octets: { EachOctet back.now },
}

// How a run of n bytes at `at` lies across a seam: so many of its bytes before the seam, from `low` on, the rest from `high` on behind it.
#[derive(Clone, Copy)]
struct Cut {
    before: usize,
    low: usize,
    high: usize,
}

impl Cut {
    ghost use Rattle.store.specs.Split.{Across};

    fn across(at: usize, n: usize, seam: usize) -> Cut
        ensures lies { Across at n seam result.before result.low result.high }
    {
        Cut {
            before: n.min(seam.saturating_sub(at)),
            low: at.min(seam),
            high: at.saturating_sub(seam),
        }
    }
}

impl<'a> SplitStore<'a> {
    ghost use Rattle.store.specs.Split.{split_bytes, split_limit};

    // The first `used` bytes of both lists, held at their length together, which is the limit.
    pub fn new(front: &'a mut [u8], back: &'a mut [u8], used: usize) -> SplitStore<'a>
        ensures bytes { split_bytes result ≡ take used (front.old ++ back.old) }
        ensures limit { split_limit result ≡ length front.old + length back.old }
    {
        SplitStore { front, back, used }
    }

    // Both lengths together, which fit since no list reaches 2^63 bytes.
    fn most(&self) -> usize
        ensures value { result ≡ split_limit self.now }
    {
        self.front.len() + self.back.len()
    }

    fn in_use(&self) -> usize
        ensures value { result ≡ length (split_bytes self.now) }
    {
        self.used.min(self.most())
    }
}

impl Store for SplitStore<'_> {
    ghost use Rattle.store.specs.Split.{split_bytes, split_limit, split_octets, split_held};

    ghost bytes = { split_bytes };

    ghost limit = { split_limit };

    ghost octets = { split_octets };

    ghost held = { split_held };

    fn length(&self) -> u64 {
        self.in_use() as u64
    }

    fn limit(&self) -> u64 {
        self.most() as u64
    }

    fn read(&self, first: u64, out: &mut [u8]) -> Result<(), Fault> {
        judge_run(first, out.len(), self.in_use())?;
        let n = out.len();
        let Cut { before, low, high } = Cut::across(first as usize, n, self.front.len());
        copy_run(self.front, low, &mut out[0..before]);
        copy_run(self.back, high, &mut out[before..n]);
        Ok(())
    }

    fn replace(&mut self, first: u64, new: &[u8]) -> Result<(), Fault> {
        judge_run(first, new.len(), self.in_use())?;
        let Cut { before, low, high } = Cut::across(first as usize, new.len(), self.front.len());
        replace_run(self.front, low, &new[0..before]);
        replace_run(self.back, high, &new[before..new.len()]);
        Ok(())
    }

    fn grow(&mut self, length: u64) -> Result<(), Fault> {
        let used = self.in_use();
        Layer::Store.demand(used as u64 <= length, Reason::Growth, length)?;
        Layer::Store.demand(length <= self.limit(), Reason::Growth, length)?;
        let n = length as usize - used;
        let Cut { before, low, high } = Cut::across(used, n, self.front.len());
        clear_run(self.front, low, before);
        clear_run(self.back, high, n - before);
        self.used = length as usize;
        Ok(())
    }
}
