// Single characters of a byte string, and a byte joined of the bits of two.
ghost use Rattle.std.specs.Prelude.{◌++◌, ◌≡◌, ◌+◌, ◌*◌, ◌/◌, ◌%◌, ◌^◌, ◌≤◌, ◌<◌, length, drop};
ghost use Rattle.codes.specs.Codes.{per, char_at};
ghost use Rattle.codes.specs.Made.{Made};

use crate::inner::bits::wide;
use crate::inner::counts::{byte_of, within_byte};
use crate::units::Chars;
use crate::widths::Width;

// Character k of a byte.
pub fn digit<W: Width>(byte: u8, k: usize) -> u8
    requires { k < per W.BITS }
    ensures { result ≡ byte / 2 ^ (W.BITS * k) % 2 ^ W.BITS }
{
    let w = W::BITS;
    (byte >> (w * k)) & ((1 << w) - 1)
}

// A byte of k characters with one more on top.
pub fn add_digit<W: Width>(low: u8, k: usize, code: u8) -> u8
    requires k_bound { k < per W.BITS }
    requires low_bound { (low < 2 ^ (W.BITS * k)) × (code < 2 ^ W.BITS) }
    ensures { result ≡ code * 2 ^ (W.BITS * k) + low }
{
    low | (code << (W::BITS * k))
}

// The low s bits of one byte under the rest of another.
pub fn joined(low: u8, high: u8, s: usize) -> u8
    requires { s ≤ 8 }
    ensures { result ≡ high / 2 ^ s * 2 ^ s + low % 2 ^ s }
{
    let above = wide(high) >> s << s;
    (above + wide(low) % (1 << s)) as u8
}

// Character i.
pub fn char_at<W: Width>(bytes: &[u8], i: usize) -> u8
    requires { i / per W.BITS < length bytes.now }
    ensures { result ≡ char_at W.BITS bytes.now i }
{
    let at = Chars::new(i);
    let b = byte_of::<W>(at).count();
    digit::<W>(bytes[b], within_byte::<W>(at).count())
}

// Zeros from byte `from` up to byte `to`.
pub fn zero_run(buffer: &mut [u8], from: usize, to: usize)
    requires { (from ≤ to) × (to ≤ length buffer.old) }
    ensures { Made (λ j. 0) from to buffer.old buffer.new }
{
    buffer[from..to].fill(0);
}

// Copies bytes to the front of a buffer.
pub fn copy(from: &[u8], to: &mut [u8])
    requires { length from.now ≤ length to.old }
    ensures { to.new ≡ from.now ++ drop (length from.now) to.old }
{
    for (i, byte) in to[..from.len()].iter_mut().enumerate() {
        *byte = from[i];
    }
}
