//! The seeded generator.

ghost use Rattle.std.specs.Prelude.{◌≡◌, ◌+◌, ◌<◌, ◌^◌};
ghost use Rattle.rand_chacha.specs.ChaCha.{word_at};
ghost use Rattle.random_words.specs.Words.{generator};

use rand_chacha::ChaCha8Rng;
use rand_core::SeedableRng;
use rand_core::utils::NextWord;

/// The ChaCha generator of 8 rounds (Bernstein 2008) whose key is the 8 bytes of the seed, least first, the byte of the
/// purpose, and 23 zeros. It stands at its first word.
pub fn generator_of(seed: u64, purpose: u8) -> ChaCha8Rng
    ensures { result ≡ generator seed purpose 0 }
{
    let number = seed.to_le_bytes();
    let mut bytes = [0u8; 32];
    bytes[..8].copy_from_slice(&number);
    bytes[8] = purpose;
    ChaCha8Rng::from_seed(bytes)
}

/// The next word of the generator.
pub fn draw(rng: &mut ChaCha8Rng) -> u32
    requires { rng.old.word_pos + 1 < 2 ^ 68 }
    ensures word { result ≡ word_at 4 rng.old.key rng.old.stream rng.old.word_pos }
    ensures state { rng.new ≡ record rng.old { word_pos = rng.old.word_pos + 1 } }
{
    rng.next_word()
}
