// Words of 64 bits, and of 128 as a low and a high half.
ghost use Rattle.std.specs.Prelude.{[], ◌∷◌, ◌++◌, map, ◌≡◌, ◌+◌, ◌*◌, ◌/◌, ◌^◌, length, drop};
ghost use Rattle.codes.specs.Answers.{halves};
ghost use Rattle.codes.specs.Codes.{lossy, letter, complement};
ghost use Rattle.codes.specs.Refusals.{answer, first, if_done, number_of, bad_word, no_room};
ghost use Rattle.codes.specs.Words.{word, chars_of, flip};
ghost use Rattle.given.specs.Face.{said};

use codes::units::Chars;
use codes::widths::Width;
use codes::words;
use given::inner::give;

pub fn pack_kmer_lossy(letters: &[u8], to: &mut u64) -> u32
    ensures { said result to.new
        ≡ answer (first (bad_word 0 32 (length letters.now) ∷ [])) (word 2 (map lossy letters.now)) 0 }
{
    give::number(words::pack_kmer_lossy(letters), 0, to)
}

pub fn pack_kmer_u128_lossy(letters: &[u8], low: &mut u64, high: &mut u64) -> u32
    ensures { said result (low.new, high.new)
        ≡ answer (first (bad_word 0 64 (length letters.now) ∷ [])) (halves (word 2 (map lossy letters.now))) (halves 0) }
{
    give::word128(words::pack_kmer_u128_lossy(letters), low, high)
}

pub fn unpack_kmer(word: u64, k: usize, out: &mut [u8]) -> u32
    ensures number { result ≡ number_of (first (bad_word 0 32 k ∷ no_room (length out.old) k ∷ [])) }
    ensures bytes { out.new ≡ if_done (first (bad_word 0 32 k ∷ no_room (length out.old) k ∷ []))
        (map letter (chars_of 2 k word) ++ drop k out.old) out.old }
{
    give::no(words::unpack_kmer(word, Chars::new(k), out))
}

pub fn unpack_kmer_u128(low: u64, high: u64, k: usize, out: &mut [u8]) -> u32
    ensures number { result ≡ number_of (first (bad_word 0 64 k ∷ no_room (length out.old) k ∷ [])) }
    ensures bytes { out.new ≡ if_done (first (bad_word 0 64 k ∷ no_room (length out.old) k ∷ []))
        (map letter (chars_of 2 k (high * 2 ^ 64 + low)) ++ drop k out.old) out.old }
{
    give::no(words::unpack_kmer_u128(low, high, Chars::new(k), out))
}

pub fn rev_u64<W: Width>(word: u64, len: usize, to: &mut u64) -> u32
    ensures { said result to.new ≡ answer (first (bad_word 1 (64 / W.BITS) len ∷ [])) (flip W.BITS (complement W.BITS) len word) 0 }
{
    give::number(words::rev_u64::<W>(word, Chars::new(len)), 0, to)
}

pub fn rev_u128<W: Width>(
    low: u64,
    high: u64,
    len: usize,
    to_low: &mut u64,
    to_high: &mut u64,
) -> u32
    ensures { said result (to_low.new, to_high.new)
        ≡ answer (first (bad_word 1 (128 / W.BITS) len ∷ [])) (halves (flip W.BITS (complement W.BITS) len (high * 2 ^ 64 + low))) (halves 0) }
{
    give::word128(
        words::rev_u128::<W>(low, high, Chars::new(len)),
        to_low,
        to_high,
    )
}
