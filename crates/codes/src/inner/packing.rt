// Letters to words and back, within one machine word and across two.
ghost use Rattle.std.specs.Prelude.{[], ◌∷◌, ◌++◌, map, ◌≡◌, ◌+◌, ◌*◌, ◌%◌, ◌^◌, ◌≤◌, length, drop};
ghost use Rattle.codes.specs.Codes.{lossy, letter};
ghost use Rattle.codes.specs.Refusals.{first, if_done, bad_word, no_room};
ghost use Rattle.codes.specs.Words.{word, chars_of};

use crate::inner::bits::wide;
use crate::refusals::Refusal;
use crate::units::Chars;

// The word of at most 32 letters.
pub(crate) fn pack(letters: &[u8]) -> u64
    requires { length letters.now ≤ 32 }
    ensures { result ≡ word 2 (map lossy letters.now) }
{
    let mut out: u64 = 0;
    for letter in letters.iter().rev() {
        out = out * 4 + wide(*letter) / 2 % 4;
    }
    out
}

// The capital letter of the lowest base of a byte: A, C and G stand two apart, and T is 15 behind its place among them. No table: the
// compiled code would make it anew on the stack for each letter.
pub fn low_letter(x: u8) -> u8
    ensures { result ≡ letter (x % 4) }
{
    let c = x % 4;
    65 + 2 * c + 15 * ((c / 2) & (1 - c % 2))
}

// Writes the k low bases of x as letters.
pub(crate) fn unpack(x: u64, k: usize, out: &mut [u8])
    requires { (k ≤ 32) × (k ≤ length out.old) }
    ensures { out.new ≡ map letter (chars_of 2 k x) ++ drop k out.old }
{
    let mut rest = x;
    for letter in out[..k].iter_mut() {
        *letter = low_letter((rest % 4) as u8);
        rest /= 4;
    }
}

// Writes the k low bases of a word of two halves.
pub(crate) fn unpack_pair(low: u64, high: u64, k: usize, out: &mut [u8])
    requires { (k ≤ 64) × (k ≤ length out.old) }
    ensures { out.new ≡ map letter (chars_of 2 k (high * 2 ^ 64 + low)) ++ drop k out.old }
{
    if k <= 32 {
        unpack(low, k, out);
    } else {
        unpack(low, 32, out);
        unpack(high, k - 32, &mut out[32..]);
    }
}

// Writes the k low bases of a word of two halves, where k is at most `most` and the buffer has room.
pub(crate) fn unpack_up_to(
    low: u64,
    high: u64,
    k: Chars,
    most: usize,
    out: &mut [u8],
) -> Result<(), Refusal>
    requires { most ≤ 64 }
    ensures outcome { result ≡ first (bad_word 0 most k.0 ∷ no_room (length out.old) k.0 ∷ []) }
    ensures bytes { out.new ≡
        if_done result (map letter (chars_of 2 k.0 (high * 2 ^ 64 + low)) ++ drop k.0 out.old) out.old }
{
    let n = k.count();
    if most < n {
        return Err(Refusal::BadWord);
    }
    if out.len() < n {
        return Err(Refusal::NoRoom);
    }
    unpack_pair(low, high, n, out);
    Ok(())
}
