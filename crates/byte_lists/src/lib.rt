// Byte lists: big-endian numbers read from and written to lists that the caller lends.
#![tactic(auto)]

ghost use Rattle.std.specs.Prelude.{◌≡◌, ◌+◌, length, nat_le};
ghost use Rattle.byte_lists.specs.Runs.{Octets};
ghost use Rattle.byte_lists.specs.Fields.{field};

mod big_endian;

pub use big_endian::{Number, number_at, put_number};

// A big-endian number of some bytes at a place.
#[derive(Clone, Copy, PartialEq, Eq, Debug)]
pub struct Field {
    pub at: u64,
    pub wide: u8,
    pub value: u64,
}

impl Field {
    pub fn new(at: u64, wide: u8, value: u64) -> Field
        ensures value { result ≡ field at wide value }
    {
        Field { at, wide, value }
    }
}

// Whether n bytes from `first` on lie within `length`, as a true sum that never wraps.
pub fn within(first: u64, n: u64, length: u64) -> bool
    ensures value { result ≡ nat_le (first + n) length }
{
    first <= length && n <= length - first
}

// The length of a list, and that its elements are bytes, for those who know the list only by its meaning.
pub fn length_of(list: &[u8]) -> usize
    ensures value { result ≡ length list.now }
    ensures octets { Octets list.now }
{
    if list.len() == 0 {
        return 0;
    }
    let _first = list[0];
    list.len()
}

#[cfg(test)]
mod tests {
    use super::*;

    #[test]
    fn numbers_up_to_the_end_of_a_list(rt: HostRuntime) {
        let mut list = [0u8; 9];
        assert!(rt; put_number(&mut list, 1, 0x0102_0304_0506_0708u64));
        assert!(rt;
            !put_number(&mut list, 2, 1u64)
                && !put_number(&mut list, 6, 1u32)
                && !put_number(&mut list, 8, 1u16)
        );
        assert_eq!(rt; number_at(&list, 1), Some(0x0102_0304_0506_0708u64));
        assert_eq!(rt; number_at::<u64>(&list, 2), None);
        assert!(rt;
            put_number(&mut list, 5, 0xfffe_fdfcu32) && put_number(&mut list, 0, 0xaabbu16)
        );
        assert_eq!(rt; number_at(&list, 5), Some(0xfffe_fdfcu32));
        assert_eq!(rt; number_at::<u32>(&list, usize::MAX), None);
        assert_eq!(rt; number_at(&list, 0), Some(0xaabbu16));
        assert_eq!(rt; number_at::<u16>(&list, 8), None);
        assert_eq!(rt; length_of(&list), 9);
    }
}
