ghost use Rattle.std.specs.Prelude.{◌≡◌};
ghost use Rattle.site_words.specs.Seed.{seed_of};

use hex::decode_to_slice;

/// The seed of a site that a text writes: 64 hexadecimal digits of either case.
pub fn seed_of(text: &[u8]) -> Option<[u8; 32]>
    ensures { result ≡ seed_of text.now }
{
    let mut seed = [0; 32];
    match decode_to_slice(text, &mut seed) {
        Ok(()) => Some(seed),
        Err(_) => None,
    }
}
