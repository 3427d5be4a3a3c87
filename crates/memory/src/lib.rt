// A store that owns its bytes, for a layer of a chain of images.
#![tactic(auto)]

ghost use Rattle.std.specs.Prelude.{◌≡◌};
ghost use Rattle.byte_lists.specs.Runs.{EachOctet};

use fault::{Fault, Layer, Reason};
use store::{Store, read_from, replace_in};

// All of its bytes are in use, and it has room for no more.
#[derive(Drop)]
pub struct MemoryStore {
    content: Vec<u8>,
    ghost octets: { EachOctet content.items },
}

impl MemoryStore {
    ghost use Rattle.memory.specs.Memory.{memory_bytes};

    pub fn new(content: Vec<u8>) -> MemoryStore
        ensures bytes { memory_bytes result ≡ content.items }
    {
        MemoryStore { content }
    }

    pub fn into_bytes(self) -> Vec<u8>
        ensures items { result.items ≡ memory_bytes self }
    {
        let MemoryStore { content } = self;
        content
    }
}

impl Store for MemoryStore {
    ghost use Rattle.memory.specs.Memory.{memory_bytes, memory_limit, memory_octets, memory_held};

    ghost bytes = { memory_bytes };

    ghost limit = { memory_limit };

    ghost octets = { memory_octets };

    ghost held = { memory_held };

    fn length(&self) -> u64 {
        self.content.len() as u64
    }

    fn limit(&self) -> u64 {
        self.length()
    }

    fn read(&self, first: u64, out: &mut [u8]) -> Result<(), Fault> {
        read_from(self.content.as_slice(), first, out)
    }

    fn replace(&mut self, first: u64, new: &[u8]) -> Result<(), Fault> {
        replace_in(self.content.as_mut_slice(), first, new)
    }

    fn grow(&mut self, length: u64) -> Result<(), Fault> {
        if length == self.content.len() as u64 {
            Ok(())
        } else {
            Err(Fault::new(Reason::Growth, Layer::Store, length))
        }
    }
}
