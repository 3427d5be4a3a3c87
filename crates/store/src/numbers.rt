// Big-endian numbers read from a store.
ghost use Rattle.std.specs.Prelude.{◌≡◌};
ghost use Rattle.store.specs.Words.{word_by};

use crate::Store;
use byte_lists::Number;
use fault::Fault;

// The number at a place, of any width.
pub fn read_number<T: Number, S: Store>(s: &S, place: u64) -> Result<T, Fault>
    ensures value { result ≡ word_by T.Number.of_bytes T.Number.WIDTH (S.Store.bytes s.now) place }
{
    let mut bytes = [0u8; 8];
    let room = &mut bytes[0..T::WIDTH];
    s.read(place, room)?;
    Ok(T::from_bytes(room).unwrap())
}
