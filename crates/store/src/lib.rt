// Stores: where an image's bytes lie. A store means a list of bytes and a limit that its length never passes.
#![tactic(auto)]

ghost use Rattle.std.specs.Prelude.{◌≡◌, ℕ, ◌≤◌, List, length};
ghost use Rattle.byte_lists.specs.Runs.{Octets};
ghost use Rattle.fault.specs.Outcomes.{Gives};
ghost use Rattle.store.specs.Stores.{load, stored, grown};

use fault::Fault;

mod calls;
mod flat;
mod numbers;
mod runs;
mod split;

pub use calls::{StoreCall, agree};
pub use flat::FlatStore;
pub use numbers::read_number;
pub use runs::{read_from, replace_in};
pub use split::SplitStore;

pub trait Store {
    // the bytes in use
    ghost bytes: { Self → List ℕ };

    // what their length never passes
    ghost limit: { Self → ℕ };

    fn length(&self) -> u64
        ensures value { result ≡ length (bytes self.now) };

    fn limit(&self) -> u64
        ensures value { result ≡ limit self.now };

    // Reads the run that begins at `first` and fills `out`.
    fn read(&self, first: u64, out: &mut [u8]) -> Result<(), Fault>
        ensures outcome { Gives result (load (bytes self.now) first (length out.old)) out.old out.new };

    // Replaces the run that begins at `first` by `new`.
    fn replace(&mut self, first: u64, new: &[u8]) -> Result<(), Fault>
        ensures outcome { Gives result (stored (bytes self.old) first new.now) (bytes self.old) (bytes self.new) }
        ensures limit { limit self.new ≡ limit self.old };

    // Grows by zeros to `length`.
    fn grow(&mut self, length: u64) -> Result<(), Fault>
        ensures outcome { Gives result (grown (bytes self.old) (limit self.old) length) (bytes self.old) (bytes self.new) }
        ensures limit { limit self.new ≡ limit self.old };

    // a store's elements are bytes
    ghost octets: { (s : Self) → Octets (bytes s) };

    // a store never passes its limit
    ghost held: { (s : Self) → length (bytes s) ≤ limit s };
}
