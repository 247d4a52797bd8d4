//! The words that are drawn from a seed.
use random_words::*;

// The first two words of a seed for a purpose.
fn first_words(seed: u64, purpose: u8) -> (u32, u32) {
    let mut rng = generator_of(seed, purpose);
    let first = draw(&mut rng);
    let second = draw(&mut rng);
    (first, second)
}

// The first words of the all-zero key are those of the cipher's published test vector: 3e00ef2f 895f40d6 in the
// order of its bytes.
#[test]
fn words_of_the_zero_key(rt: HostRuntime) {
    let (first, second) = first_words(0, 0);
    let (other, _) = first_words(0, 1);
    assert!(rt; first == 0x2fef003e && second == 0xd6405f89 && other != 0x2fef003e);
}
