// Lists for a store, made from the bytes that are to be in use, and the bytes of a store as a list again.
ghost use Rattle.std.specs.Prelude.{◌≡◌, ◌-◌, ◌^◌, ◌≤◌, min, length, take, IfOk};
ghost use Rattle.lent.specs.Lent.{any_bytes, any_limit};
ghost use Rattle.lent.specs.Lists.{laid as laid_of, space_limit, lists_bytes, lists_limit};

use crate::any_store::AnyStore;
use std::alloc::{AllocError, Global};
use store::{FlatStore, SplitStore, Store};

// What lists hold past the bytes in use, and buffers before a call: what has to stay is then seen to stay.
pub const BLANK: u8 = 0xee;

// How many bytes the lists of a store have.
#[derive(Clone, Copy)]
pub enum Space {
    Flat(u64),
    Split(u64, u64),
}

// A flat store has one list, a split store two.
#[derive(Drop)]
enum Parts {
    One(Vec<u8>),
    Two(Vec<u8>, Vec<u8>),
}

#[derive(Drop)]
pub struct Lists {
    parts: Parts,
    used: usize,
}

// A list of so many bytes, the content at its front, cut where it is longer.
fn laid(heap: Global, limit: u64, content: &[u8]) -> Result<Vec<u8>, AllocError>
    ensures items { IfOk result (λ v. v.items ≡ laid_of limit content.now) }
{
    let mut list = Vec::from_slice(heap, content)?;
    list.resize(limit as usize, BLANK)?;
    Ok(list)
}

impl Space {
    // The length of the lists together, held at the largest of 64 bits.
    pub fn limit(self) -> u64
        ensures value { result ≡ min (space_limit self) (2 ^ 64 - 1) }
    {
        match self {
            Space::Flat(limit) => limit,
            Space::Split(first, second) => first.saturating_add(second),
        }
    }
}

impl Lists {
    // Lists with the content in use, as far as it fits.
    #[tactic(auto, using(crate::proofs::Laying::flat, crate::proofs::Laying::split))]
    pub fn new(heap: Global, space: Space, content: &[u8]) -> Result<Lists, AllocError>
        ensures bytes { IfOk result (λ l. lists_bytes l ≡ take (space_limit space) content.now) }
        ensures limit { IfOk result (λ l. lists_limit l ≡ space_limit space) }
    {
        let parts = match space {
            Space::Flat(limit) => Parts::One(laid(heap, limit, content)?),
            Space::Split(first, second) => {
                let seam = content.len().min(first as usize);
                Parts::Two(
                    laid(heap, first, content)?,
                    laid(heap, second, &content[seam..])?,
                )
            }
        };
        Ok(Lists {
            parts,
            used: content.len(),
        })
    }

    // The store over the lists.
    pub fn store(&mut self) -> AnyStore<'_>
        ensures bytes { any_bytes result ≡ lists_bytes self.old }
        ensures limit { any_limit result ≡ lists_limit self.old }
    {
        let used = self.used;
        match &mut self.parts {
            Parts::One(list) => AnyStore::Flat(FlatStore::new(list.as_mut_slice(), used)),
            Parts::Two(front, back) => AnyStore::Split(SplitStore::new(
                front.as_mut_slice(),
                back.as_mut_slice(),
                used,
            )),
        }
    }
}

// All bytes in use of a store, which are within its limit.
#[tactic(auto, using(crate::proofs::Laying::read_whole))]
pub fn bytes_of<S: Store>(heap: Global, s: &S) -> Result<Vec<u8>, AllocError>
    ensures items { IfOk result (λ v. v.items ≡ S.Store.bytes s.now) }
    ensures held { IfOk result (λ v. length v.items ≤ S.Store.limit s.now) }
{
    let mut all = vec![in heap; 0; s.length() as usize]?;
    let _ = s.read(0, all.as_mut_slice());
    Ok(all)
}
