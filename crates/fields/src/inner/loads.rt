// Bits of a byte string. A load of 64 bits is a ladder of smaller ones, each two of the one before: the compiler makes one load of it.
ghost use Rattle.std.specs.Prelude.{◌≡◌, ◌+◌, ◌*◌, ◌/◌, ◌%◌, ◌^◌, ◌≤◌, ◌<◌, length};
ghost use Rattle.codes.specs.Words.{word};

use codes::inner::bits::{Pair, low_bits, shr_pair, wide};

// The byte at `at`.
fn load8(bytes: &[u8], at: usize) -> u64
    requires { at + 1 ≤ length bytes.now }
    ensures { result ≡ word 8 bytes.now / 2 ^ (8 * at) % 2 ^ 8 }
{
    wide(bytes[at])
}

// Two bytes from `at` on, the first lowest.
fn load16(bytes: &[u8], at: usize) -> u64
    requires { at + 2 ≤ length bytes.now }
    ensures { result ≡ word 8 bytes.now / 2 ^ (8 * at) % 2 ^ 16 }
{
    load8(bytes, at) + load8(bytes, at + 1) * 0x100
}

// Four bytes from `at` on.
fn load32(bytes: &[u8], at: usize) -> u64
    requires { at + 4 ≤ length bytes.now }
    ensures { result ≡ word 8 bytes.now / 2 ^ (8 * at) % 2 ^ 32 }
{
    load16(bytes, at) + load16(bytes, at + 2) * 0x1_0000
}

// Eight bytes from `at` on.
pub fn load64(bytes: &[u8], at: usize) -> u64
    requires { at + 8 ≤ length bytes.now }
    ensures { result ≡ word 8 bytes.now / 2 ^ (8 * at) % 2 ^ 64 }
{
    load32(bytes, at) + load32(bytes, at + 4) * 0x1_0000_0000
}

// 56 bits or more from bit s of the byte at `at` on.
pub fn peek_at(bytes: &[u8], at: usize, s: usize) -> u64
    requires { (s < 8) × (at + 8 ≤ length bytes.now) }
    ensures { result % 2 ^ 56 ≡ word 8 bytes.now / 2 ^ (8 * at + s) % 2 ^ 56 }
{
    load64(bytes, at) >> s
}

// 56 bits or more from bit p on.
pub fn peek(bytes: &[u8], p: usize) -> u64
    requires { p / 8 + 8 ≤ length bytes.now }
    ensures { result % 2 ^ 56 ≡ word 8 bytes.now / 2 ^ p % 2 ^ 56 }
{
    peek_at(bytes, p / 8, p % 8)
}

// The 64 bits from bit s of the byte at `at` on.
pub fn word_at(bytes: &[u8], at: usize, s: usize) -> u64
    requires { (s < 8) × (at + 9 ≤ length bytes.now) }
    ensures { result ≡ word 8 bytes.now / 2 ^ (8 * at + s) % 2 ^ 64 }
{
    let pair = shr_pair(load64(bytes, at), load8(bytes, at + 8), s);
    pair.low
}

// The n bits from bit p on.
pub fn bits_at(bytes: &[u8], p: usize, n: usize) -> u64
    requires { (n ≤ 64) × (p / 8 + 9 ≤ length bytes.now) }
    ensures { result ≡ word 8 bytes.now / 2 ^ p % 2 ^ n }
{
    low_bits(word_at(bytes, p / 8, p % 8), n)
}

// The n bits from bit p on, in two halves.
pub(crate) fn bits_pair_at(bytes: &[u8], p: usize, n: usize) -> Pair
    requires { (n ≤ 128) × (p < 2 ^ 63) × (p / 8 + 17 ≤ length bytes.now) }
    ensures { result.high * 2 ^ 64 + result.low ≡ word 8 bytes.now / 2 ^ p % 2 ^ n }
{
    if n <= 64 {
        return Pair {
            low: bits_at(bytes, p, n),
            high: 0,
        };
    }
    let low = bits_at(bytes, p, 64);
    let high = bits_at(bytes, p + 64, n - 64);
    Pair { low, high }
}
