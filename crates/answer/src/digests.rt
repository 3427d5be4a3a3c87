// The digest of a store's bytes.
ghost use Rattle.std.specs.Prelude.{◌≡◌};
ghost use Rattle.answer.specs.Digest.{digest as digest_of};

// The 64-bit FNV-1a.
pub(crate) fn digest(bytes: &[u8]) -> u64
    ensures value { result ≡ digest_of bytes.now }
{
    bytes.iter().fold(0xcbf2_9ce4_8422_2325, |h, b| {
        (h ^ u64::from(*b)).wrapping_mul(0x0000_0100_0000_01b3)
    })
}
