// Words: a list of characters as one number, the first character lowest; of 64 bits, or of 128 as two halves, as C
// gives them: so there are two functions for each.
ghost use Rattle.std.specs.Prelude.{[], ◌∷◌, ◌++◌, map, ◌≡◌, ◌+◌, ◌*◌, ◌/◌, ◌^◌, length, drop};
ghost use Rattle.codes.specs.Answers.{says, word128_says, halves};
ghost use Rattle.codes.specs.Codes.{lossy, letter, complement};
ghost use Rattle.codes.specs.Refusals.{answer, first, if_done, bad_word, no_room};
ghost use Rattle.codes.specs.Words.{word, chars_of, flip};

use crate::inner::bits::Pair;
use crate::inner::checks::bad_word;
use crate::inner::counts::over_width;
use crate::inner::flips::{flip_low, flip_low_pair};
use crate::inner::packing::{pack, unpack_up_to};
use crate::refusals::Refusal;
use crate::units::Chars;
use crate::widths::Width;

// The word of 0 to 32 letters.
pub fn pack_kmer_lossy(letters: &[u8]) -> Result<u64, Refusal>
    ensures { says result ≡ answer (first (bad_word 0 32 (length letters.now) ∷ [])) (word 2 (map lossy letters.now)) 0 }
{
    if 32 < letters.len() {
        return Err(Refusal::BadWord);
    }
    Ok(pack(letters))
}

// The word of 0 to 64 letters.
pub fn pack_kmer_u128_lossy(letters: &[u8]) -> Result<Pair, Refusal>
    ensures { word128_says result ≡
        answer (first (bad_word 0 64 (length letters.now) ∷ [])) (halves (word 2 (map lossy letters.now))) (halves 0) }
{
    let n = letters.len();
    if 64 < n {
        return Err(Refusal::BadWord);
    }
    if n <= 32 {
        return Ok(Pair {
            low: pack(letters),
            high: 0,
        });
    }
    Ok(Pair {
        low: pack(&letters[..32]),
        high: pack(&letters[32..]),
    })
}

// Writes the k low bases of a word as capital letters, k from 0 to 32.
pub fn unpack_kmer(word: u64, k: Chars, out: &mut [u8]) -> Result<(), Refusal>
    ensures outcome { result ≡ first (bad_word 0 32 k.0 ∷ no_room (length out.old) k.0 ∷ []) }
    ensures bytes { out.new ≡ if_done result (map letter (chars_of 2 k.0 word) ++ drop k.0 out.old) out.old }
{
    unpack_up_to(word, 0, k, 32, out)
}

// Writes the k low bases of a word of two halves as capital letters, k from 0 to 64.
pub fn unpack_kmer_u128(low: u64, high: u64, k: Chars, out: &mut [u8]) -> Result<(), Refusal>
    ensures outcome { result ≡ first (bad_word 0 64 k.0 ∷ no_room (length out.old) k.0 ∷ []) }
    ensures bytes { out.new ≡
        if_done result (map letter (chars_of 2 k.0 (high * 2 ^ 64 + low)) ++ drop k.0 out.old) out.old }
{
    unpack_up_to(low, high, k, 64, out)
}

// The len low characters of a word in reverse, bases complemented, len from 1 to as many as the word holds: 32 bases, 64 flags.
pub fn rev_u64<W: Width>(word: u64, len: Chars) -> Result<u64, Refusal>
    ensures { says result ≡ answer (first (bad_word 1 (64 / W.BITS) len.0 ∷ [])) (flip W.BITS (complement W.BITS) len.0 word) 0 }
{
    if bad_word(1, over_width::<W>(64), len) {
        return Err(Refusal::BadWord);
    }
    Ok(flip_low::<W>(word, len.count()))
}

// The same of a word of two halves, which holds 64 bases, 128 flags.
pub fn rev_u128<W: Width>(low: u64, high: u64, len: Chars) -> Result<Pair, Refusal>
    ensures { word128_says result ≡
        answer (first (bad_word 1 (128 / W.BITS) len.0 ∷ [])) (halves (flip W.BITS (complement W.BITS) len.0 (high * 2 ^ 64 + low))) (halves 0) }
{
    if bad_word(1, over_width::<W>(128), len) {
        return Err(Refusal::BadWord);
    }
    Ok(flip_low_pair::<W>(low, high, len.count()))
}
