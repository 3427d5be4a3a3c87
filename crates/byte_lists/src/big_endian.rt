// Big-endian numbers in lists, of each width alike.
ghost use Rattle.std.specs.Prelude.{◌≡◌, ℕ, ◌+◌, ◌≤◌, List, length, Option, if◌then◌else◌, nat_eq, nat_le};
ghost use Rattle.byte_lists.specs.Runs.{run, put};
ghost use Rattle.byte_lists.specs.Numbers.{be, be_bytes, number as number_in, spell as spelled, number_is, spell_is_put, length-be_bytes};
ghost use Rattle.byte_lists.specs.Found.{spelled_by, found_by};
ghost use Rattle.std.proofs.Common.{lit≤};

use crate::within;

// A number that lists hold in big-endian bytes.
pub trait Number: Copy + Drop {
    // how many bytes it has
    ghost WIDTH: { ℕ };

    const WIDTH: usize;

    // the number that so many bytes spell, and the bytes of a number
    ghost of_bytes: { List ℕ → Self };

    ghost in_bytes: { Self → List ℕ };

    // the number at a place of a list, and the list with a number there
    ghost number: { List ℕ → ℕ → Self };

    ghost spell: { List ℕ → ℕ → Self → List ℕ };

    // The number that a list of its width spells.
    fn from_bytes(bytes: &[u8]) -> Option<Self>
        ensures value { result ≡ spelled_by of_bytes WIDTH bytes.now };

    // Its bytes, into a list of its width; any other list is left alone.
    fn write_to(self, room: &mut [u8])
        ensures after { room.new ≡ (if nat_eq (length room.old) WIDTH then in_bytes self else room.old) };

    ghost is_read: { (bs : List ℕ) (at : ℕ) → number bs at ≡ of_bytes (run bs at WIDTH) };

    ghost is_written: { (bs : List ℕ) (at : ℕ) (x : Self) → spell bs at x ≡ put bs at (in_bytes x) };

    ghost as_wide: { (x : Self) → length (in_bytes x) ≡ WIDTH };

    ghost at_most_8: { WIDTH ≤ 8 };
}

impl Number for u16 {
    ghost WIDTH = { 2 };

    const WIDTH: usize = 2;

    ghost of_bytes = { be };

    ghost in_bytes = { be_bytes 2 };

    ghost number = { λ bs at. number_in bs at 2 };

    ghost spell = { λ bs at x. spelled bs at 2 x };

    fn from_bytes(bytes: &[u8]) -> Option<u16> {
        match bytes {
            [a, b] => Some(u16::from_be_bytes([*a, *b])),
            _ => None,
        }
    }

    fn write_to(self, room: &mut [u8]) {
        if room.len() == 2 {
            room.copy_from_slice(&u16::to_be_bytes(self));
        }
    }

    ghost is_read = { λ bs at. number_is bs at 2 };

    ghost is_written = { λ bs at x. spell_is_put bs at 2 x };

    ghost as_wide = { length-be_bytes 2 };

    ghost at_most_8 = { lit≤ tt };
}

impl Number for u32 {
    ghost WIDTH = { 4 };

    const WIDTH: usize = 4;

    ghost of_bytes = { be };

    ghost in_bytes = { be_bytes 4 };

    ghost number = { λ bs at. number_in bs at 4 };

    ghost spell = { λ bs at x. spelled bs at 4 x };

    fn from_bytes(bytes: &[u8]) -> Option<u32> {
        match bytes {
            [a, b, c, d] => Some(u32::from_be_bytes([*a, *b, *c, *d])),
            _ => None,
        }
    }

    fn write_to(self, room: &mut [u8]) {
        if room.len() == 4 {
            room.copy_from_slice(&u32::to_be_bytes(self));
        }
    }

    ghost is_read = { λ bs at. number_is bs at 4 };

    ghost is_written = { λ bs at x. spell_is_put bs at 4 x };

    ghost as_wide = { length-be_bytes 4 };

    ghost at_most_8 = { lit≤ tt };
}

impl Number for u64 {
    ghost WIDTH = { 8 };

    const WIDTH: usize = 8;

    ghost of_bytes = { be };

    ghost in_bytes = { be_bytes 8 };

    ghost number = { λ bs at. number_in bs at 8 };

    ghost spell = { λ bs at x. spelled bs at 8 x };

    fn from_bytes(bytes: &[u8]) -> Option<u64> {
        match bytes {
            [a, b, c, d, e, f, g, h] => Some(u64::from_be_bytes([*a, *b, *c, *d, *e, *f, *g, *h])),
            _ => None,
        }
    }

    fn write_to(self, room: &mut [u8]) {
        if room.len() == 8 {
            room.copy_from_slice(&u64::to_be_bytes(self));
        }
    }

    ghost is_read = { λ bs at. number_is bs at 8 };

    ghost is_written = { λ bs at x. spell_is_put bs at 8 x };

    ghost as_wide = { length-be_bytes 8 };

    ghost at_most_8 = { lit≤ tt };
}

// The number at a place of a list.
pub fn number_at<T: Number>(list: &[u8], at: usize) -> Option<T>
    ensures value { result ≡ found_by T.number T.WIDTH list.now at }
{
    if !within(at as u64, T::WIDTH as u64, list.len() as u64) {
        return None;
    }
    T::from_bytes(&list[at..at + T::WIDTH])
}

// Writes a number where it fits, and says whether it did.
pub fn put_number<T: Number>(list: &mut [u8], at: usize, x: T) -> bool
    ensures value { result ≡ nat_le (at + T.WIDTH) (length list.old) }
    ensures after { list.new ≡ (if result then T.spell list.old at x else list.old) }
{
    if !within(at as u64, T::WIDTH as u64, list.len() as u64) {
        return false;
    }
    x.write_to(&mut list[at..at + T::WIDTH]);
    true
}
