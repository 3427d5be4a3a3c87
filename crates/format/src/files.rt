// Images in files: qemu-img may end a file inside its last cluster, which is then taken as filled up with zeros.
ghost use Rattle.std.specs.Prelude.{◌≡◌, true, false, length, MatchOption};
ghost use Rattle.byte_lists.specs.Runs.{run};
ghost use Rattle.format.specs.Header.{filled_length, name_in};

use crate::numbers::{Numbers, cluster_of};
use byte_lists::{number_at, within};

// The length of a file with its last cluster filled up; a file that claims no good cluster size is left as it is.
pub fn filled_length(first: &[u8], length: u64) -> u64
    ensures value { result ≡ filled_length first.now length }
{
    match number_at::<u32>(first, 20) {
        Some(bits @ 9..=21) => length
            .checked_next_multiple_of(cluster_of(bits))
            .unwrap_or(u64::MAX),
        _ => length,
    }
}

impl Numbers {
    // The backing name in an image's first bytes; none if the image has none, or the bytes end before it does.
    pub fn backing_name(self, first: &[u8]) -> Option<&[u8]>
        ensures value { MatchOption result (name_in self (length first.now) ≡ false) (λ s. (name_in self (length first.now) ≡ true) × (s.now ≡ run first.now self.name self.letters)) }
    {
        if !self.has_backing() || !within(self.name, self.letters as u64, first.len() as u64) {
            return None;
        }
        let from = self.name as usize;
        Some(&first[from..from + self.letters as usize])
    }
}
