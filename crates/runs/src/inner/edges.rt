// Bytes that new characters share with what stands there: joined with it, or made anew character by character.
ghost use Rattle.std.specs.Prelude.{map, ◌≡◌, ◌+◌, ◌-◌, ◌*◌, ◌/◌, ◌%◌, ◌^◌, ◌≤◌, ◌<◌, length, get_or};
ghost use Rattle.codes.specs.Codes.{per, code};
ghost use Rattle.codes.specs.Made.{Made};
ghost use Rattle.runs.specs.Bytes.{fresh_char, fresh_byte, anew, letters_word};

use crate::inner::whole::{bases4, flags_of};
use codes::inner::bits::wide;
use codes::inner::counts::{chars_in, per_byte};
use codes::inner::tracks::{add_digit, digit, joined};
use codes::units::Bytes;
use codes::widths::Width;

// Byte b: the characters of `low` below character k, then its own.
pub(crate) fn join_below<W: Width>(buffer: &mut [u8], b: usize, k: usize, low: u8)
    requires { (b < length buffer.old) × (k ≤ per W.BITS) }
    ensures { Made (λ j. get_or buffer.old j 0 / 2 ^ (W.BITS * k) * 2 ^ (W.BITS * k) + low % 2 ^ (W.BITS * k)) b (b + 1)
        buffer.old buffer.new }
{
    buffer[b] = joined(low, buffer[b], W::BITS * k);
}

// Byte b: its own characters below character k, then those of `high`.
pub(crate) fn join_above<W: Width>(buffer: &mut [u8], b: usize, k: usize, high: u8)
    requires { (b < length buffer.old) × (k ≤ per W.BITS) }
    ensures { Made (λ j. high / 2 ^ (W.BITS * k) * 2 ^ (W.BITS * k) + get_or buffer.old j 0 % 2 ^ (W.BITS * k)) b (b + 1)
        buffer.old buffer.new }
{
    buffer[b] = joined(buffer[b], high, W::BITS * k);
}

// A byte of letters, from letter i on.
fn whole_byte<W: Width>(letters: &[u8], i: usize) -> u64
    requires { (W.BITS ≤ 2) × (i + per W.BITS ≤ length letters.now) }
    ensures { result ≡ letters_word W.BITS (per W.BITS) letters.now i }
{
    // Known when this is compiled; a trait of its own over `Width` would be one bound more on each function above.
    if W::BITS == 2 {
        return wide(bases4(letters, i));
    }
    flags_of(letters, i, 1)
}

// The first letters from character k of a byte on.
pub(crate) fn first_letters<W: Width>(letters: &[u8], k: usize) -> u8
    requires { (W.BITS ≤ 2) × (per W.BITS ≤ length letters.now) × (k ≤ per W.BITS) }
    ensures { result ≡ letters_word W.BITS (per W.BITS) letters.now 0 * 2 ^ (W.BITS * k) % 2 ^ 8 }
{
    ((whole_byte::<W>(letters, 0) << (W::BITS * k)) % 0x100) as u8
}

// The last n letters, no more than a byte holds, from its first character on.
pub(crate) fn last_letters<W: Width>(letters: &[u8], n: usize) -> u8
    requires { (W.BITS ≤ 2) × (per W.BITS ≤ length letters.now) × (n ≤ per W.BITS) }
    ensures { result ≡ letters_word W.BITS (per W.BITS) letters.now (length letters.now - per W.BITS) / 2 ^ (W.BITS * (per W.BITS - n)) % 2 ^ 8 }
{
    let c = per_byte::<W>().count();
    ((whole_byte::<W>(letters, letters.len() - c) >> (W::BITS * (c - n))) % 0x100) as u8
}

// Character k of a byte, at place i: a letter's code or 0 from `at` up to `stop`, else the old one.
fn fresh_char<W: Width>(old: u8, k: usize, i: usize, at: usize, letters: &[u8], stop: usize) -> u8
    requires { k < per W.BITS }
    ensures { result ≡ fresh_char W.BITS old at (map (code W.BITS) letters.now) stop i k }
{
    if i < at {
        return digit::<W>(old, k);
    }
    if stop <= i {
        return digit::<W>(old, k);
    }
    let j = i - at;
    if j < letters.len() {
        return W::code_of(letters[j]);
    }
    0
}

// Byte b, made anew.
fn fresh_byte<W: Width>(old: u8, b: usize, at: usize, letters: &[u8], stop: usize) -> u8
    requires { b ≤ 2 ^ 28 }
    ensures { result ≡ fresh_byte W.BITS old at (map (code W.BITS) letters.now) stop b }
{
    let c = per_byte::<W>().count();
    let first = chars_in::<W>(Bytes::new(b)).count();
    let mut byte: u8 = 0;
    for k in 0..c {
        let v = fresh_char::<W>(old, k, first + k, at, letters, stop);
        byte = add_digit::<W>(byte, k, v);
    }
    byte
}

// The bytes from byte `from` up to byte `to`.
pub(crate) fn edge_run<W: Width>(
    buffer: &mut [u8],
    from: usize,
    to: usize,
    at: usize,
    letters: &[u8],
    stop: usize,
)
    requires { (from ≤ to) × (to ≤ length buffer.old) × (length buffer.old ≤ 2 ^ 28) }
    ensures { Made (anew W.BITS buffer.old at (map (code W.BITS) letters.now) stop) from to buffer.old buffer.new }
{
    for j in from..to {
        buffer[j] = fresh_byte::<W>(buffer[j], j, at, letters, stop);
    }
}
