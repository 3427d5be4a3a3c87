// A flat or a split store.
ghost use Rattle.lent.specs.Lent.{any_bytes, any_limit, any_octets, any_held};

use fault::Fault;
use store::{FlatStore, SplitStore, Store};

#[derive(Drop)]
pub enum AnyStore<'a> {
    Flat(FlatStore<'a>),
    Split(SplitStore<'a>),
}

impl Store for AnyStore<'_> {
    ghost bytes = { any_bytes };

    ghost limit = { any_limit };

    ghost octets = { any_octets };

    ghost held = { any_held };

    fn length(&self) -> u64 {
        match self {
            AnyStore::Flat(s) => s.length(),
            AnyStore::Split(s) => s.length(),
        }
    }

    fn limit(&self) -> u64 {
        match self {
            AnyStore::Flat(s) => s.limit(),
            AnyStore::Split(s) => s.limit(),
        }
    }

    // A check reads entries of a few bytes, and takes half as long again if each is a call.
    #[inline(always)]
    fn read(&self, first: u64, out: &mut [u8]) -> Result<(), Fault> {
        match self {
            AnyStore::Flat(s) => s.read(first, out),
            AnyStore::Split(s) => s.read(first, out),
        }
    }

    fn replace(&mut self, first: u64, new: &[u8]) -> Result<(), Fault> {
        match self {
            AnyStore::Flat(s) => s.replace(first, new),
            AnyStore::Split(s) => s.replace(first, new),
        }
    }

    fn grow(&mut self, length: u64) -> Result<(), Fault> {
        match self {
            AnyStore::Flat(s) => s.grow(length),
            AnyStore::Split(s) => s.grow(length),
        }
    }
}
