// Words in reverse, bases complemented. A whole word by a network of swaps: the halves change places, then the halves of each half, and
// so on down; its low characters by a shift of the whole.
ghost use Rattle.std.specs.Prelude.{◌≡◌, ◌+◌, ◌*◌, ◌/◌, ◌^◌, ◌≤◌};
ghost use Rattle.codes.specs.Codes.{complement};
ghost use Rattle.codes.specs.Words.{flip, same};

use crate::inner::bits::{Pair, shr_pair};
use crate::widths::Width;

// The 16 fours of bits of x in reverse.
pub(crate) fn flip_fours(x: u64) -> u64
    ensures { result ≡ flip 4 same 16 x }
{
    let a = ((x >> 32) & 0x0000_0000_ffff_ffff) | ((x & 0x0000_0000_ffff_ffff) << 32);
    let b = ((a >> 16) & 0x0000_ffff_0000_ffff) | ((a & 0x0000_ffff_0000_ffff) << 16);
    let c = ((b >> 8) & 0x00ff_00ff_00ff_00ff) | ((b & 0x00ff_00ff_00ff_00ff) << 8);
    ((c >> 4) & 0x0f0f_0f0f_0f0f_0f0f) | ((c & 0x0f0f_0f0f_0f0f_0f0f) << 4)
}

// The 32 pairs of bits of x in reverse.
fn flip_pairs(x: u64) -> u64
    ensures { result ≡ flip 2 same 32 x }
{
    let d = flip_fours(x);
    ((d >> 2) & 0x3333_3333_3333_3333) | ((d & 0x3333_3333_3333_3333) << 2)
}

// All 32 bases of x, reversed and complemented.
pub(crate) fn flip_bases(x: u64) -> u64
    ensures { result ≡ flip 2 (complement 2) 32 x }
{
    flip_pairs(x) ^ 0xaaaa_aaaa_aaaa_aaaa
}

// All 64 flags of x, reversed.
pub(crate) fn flip_flags(x: u64) -> u64
    ensures { result ≡ flip 1 (complement 1) 64 x }
{
    let e = flip_pairs(x);
    ((e >> 1) & 0x5555_5555_5555_5555) | ((e & 0x5555_5555_5555_5555) << 1)
}

// The n low characters of x in reverse, bases complemented.
pub fn flip_low<W: Width>(x: u64, n: usize) -> u64
    requires { (1 ≤ n) × (W.BITS * n ≤ 64) }
    ensures { result ≡ flip W.BITS (complement W.BITS) n x }
{
    W::flip_word(x) >> (64 - W::BITS * n)
}

// The n low characters of a word of two halves in reverse: each half is flipped, and they change places.
pub fn flip_low_pair<W: Width>(low: u64, high: u64, n: usize) -> Pair
    requires { (1 ≤ n) × (W.BITS * n ≤ 128) }
    ensures { result.high * 2 ^ 64 + result.low ≡ flip W.BITS (complement W.BITS) n (high * 2 ^ 64 + low) }
{
    shr_pair(W::flip_word(high), W::flip_word(low), 128 - W::BITS * n)
}
