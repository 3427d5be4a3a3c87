// The flat store: one byte list of the caller's, its front in use.
ghost use Rattle.std.specs.Prelude.{◌≡◌, ◌≤◌, length, take};
ghost use Rattle.byte_lists.specs.Runs.{EachOctet};

use crate::Store;
use crate::runs::{clear_run, read_from, replace_in};
use fault::{Fault, Layer, Reason};

#[derive(Drop)]
pub struct FlatStore<'a> {
    list: &'a mut [u8],
    used: usize,
    ghost octets: { EachOctet list.now },
    ghost most: { used ≤ length list.now },
}

impl<'a> FlatStore<'a> {
    ghost use Rattle.store.specs.Flat.{flat_bytes, flat_limit};

    // The first `used` bytes of the list, held at its length, which is the limit.
    pub fn new(list: &'a mut [u8], used: usize) -> FlatStore<'a>
        ensures bytes { flat_bytes result ≡ take used list.old }
        ensures limit { flat_limit result ≡ length list.old }
    {
        let used = used.min(list.len());
        FlatStore { list, used }
    }
}

impl Store for FlatStore<'_> {
    ghost use Rattle.store.specs.Flat.{flat_bytes, flat_limit, flat_octets, flat_held};

    ghost bytes = { flat_bytes };

    ghost limit = { flat_limit };

    ghost octets = { flat_octets };

    ghost held = { flat_held };

    fn length(&self) -> u64 {
        self.used as u64
    }

    fn limit(&self) -> u64 {
        self.list.len() as u64
    }

    fn read(&self, first: u64, out: &mut [u8]) -> Result<(), Fault> {
        read_from(&self.list[0..self.used], first, out)
    }

    fn replace(&mut self, first: u64, new: &[u8]) -> Result<(), Fault> {
        replace_in(&mut self.list[0..self.used], first, new)
    }

    fn grow(&mut self, length: u64) -> Result<(), Fault> {
        Layer::Store.demand(self.used as u64 <= length, Reason::Growth, length)?;
        Layer::Store.demand(length <= self.limit(), Reason::Growth, length)?;
        clear_run(self.list, self.used, length as usize - self.used);
        self.used = length as usize;
        Ok(())
    }
}
