// Words of 64 bits, and of 128 as a low and a high half.
ghost use Rattle.std.specs.Prelude.{[], ◌∷◌, ◌++◌, map, ◌≡◌, ◌+◌, ◌*◌, ◌^◌, length, drop};
ghost use Rattle.codes.specs.Answers.{halves};
ghost use Rattle.codes.specs.Codes.{lossy, letter, complement};
ghost use Rattle.codes.specs.Refusals.{answer, first, if_done, number_of, bad_word, no_room};
ghost use Rattle.codes.specs.Words.{word, chars_of, flip};
ghost use Rattle.given.specs.Face.{said};

use codes::widths::{Bases, Flags};
use plain::inner::words;

#[unsafe(no_mangle)]
pub extern "C" fn tsiv_pack_kmer_lossy(letters: &[u8], to: &mut u64) -> u32
    ensures { said result to.new
        ≡ answer (first (bad_word 0 32 (length letters.now) ∷ [])) (word 2 (map lossy letters.now)) 0 }
{
    words::pack_kmer_lossy(letters, to)
}

#[unsafe(no_mangle)]
pub extern "C" fn tsiv_pack_kmer_u128_lossy(letters: &[u8], low: &mut u64, high: &mut u64) -> u32
    ensures { said result (low.new, high.new)
        ≡ answer (first (bad_word 0 64 (length letters.now) ∷ [])) (halves (word 2 (map lossy letters.now))) (halves 0) }
{
    words::pack_kmer_u128_lossy(letters, low, high)
}

#[unsafe(no_mangle)]
pub extern "C" fn tsiv_unpack_kmer(word: u64, k: usize, out: &mut [u8]) -> u32
    ensures number { result ≡ number_of (first (bad_word 0 32 k ∷ no_room (length out.old) k ∷ [])) }
    ensures bytes { out.new ≡ if_done (first (bad_word 0 32 k ∷ no_room (length out.old) k ∷ []))
        (map letter (chars_of 2 k word) ++ drop k out.old) out.old }
{
    words::unpack_kmer(word, k, out)
}

#[unsafe(no_mangle)]
pub extern "C" fn tsiv_unpack_kmer_u128(low: u64, high: u64, k: usize, out: &mut [u8]) -> u32
    ensures number { result ≡ number_of (first (bad_word 0 64 k ∷ no_room (length out.old) k ∷ [])) }
    ensures bytes { out.new ≡ if_done (first (bad_word 0 64 k ∷ no_room (length out.old) k ∷ []))
        (map letter (chars_of 2 k (high * 2 ^ 64 + low)) ++ drop k out.old) out.old }
{
    words::unpack_kmer_u128(low, high, k, out)
}

#[unsafe(no_mangle)]
pub extern "C" fn tsiv_revcomp_u64(word: u64, len: usize, to: &mut u64) -> u32
    ensures { said result to.new ≡ answer (first (bad_word 1 32 len ∷ [])) (flip 2 (complement 2) len word) 0 }
{
    words::rev_u64::<Bases>(word, len, to)
}

#[unsafe(no_mangle)]
pub extern "C" fn tsiv_revcomp_u128(
    low: u64,
    high: u64,
    len: usize,
    to_low: &mut u64,
    to_high: &mut u64,
) -> u32
    ensures { said result (to_low.new, to_high.new)
        ≡ answer (first (bad_word 1 64 len ∷ [])) (halves (flip 2 (complement 2) len (high * 2 ^ 64 + low))) (halves 0) }
{
    words::rev_u128::<Bases>(low, high, len, to_low, to_high)
}

#[unsafe(no_mangle)]
pub extern "C" fn tsiv_rev_u64(word: u64, len: usize, to: &mut u64) -> u32
    ensures { said result to.new ≡ answer (first (bad_word 1 64 len ∷ [])) (flip 1 (complement 1) len word) 0 }
{
    words::rev_u64::<Flags>(word, len, to)
}

#[unsafe(no_mangle)]
pub extern "C" fn tsiv_rev_u128(
    low: u64,
    high: u64,
    len: usize,
    to_low: &mut u64,
    to_high: &mut u64,
) -> u32
    ensures { said result (to_low.new, to_high.new)
        ≡ answer (first (bad_word 1 128 len ∷ [])) (halves (flip 1 (complement 1) len (high * 2 ^ 64 + low))) (halves 0) }
{
    words::rev_u128::<Flags>(low, high, len, to_low, to_high)
}
