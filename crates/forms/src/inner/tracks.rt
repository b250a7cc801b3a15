// The bytes of one track: packed from a view, tested for spare bits, copied into a store.
ghost use Rattle.std.specs.Prelude.{Ok, ◌++◌, ◌≡◌, ◌+◌, ◌≤◌, length, take, drop};
ghost use Rattle.codes.specs.Codes.{up, trailing, chars};
ghost use Rattle.codes.specs.Refusals.{first, view_tests};
ghost use Rattle.codes.specs.Words.{chars_of, packed};
ghost use Rattle.forms.specs.Reading.{spare_clear, filled_with};

use codes::inner::counts::{byte_of, within_byte};
use codes::inner::tracks::{copy, zero_run};
use codes::units::{Chars, TRAILING};
use codes::widths::Width;
use fields::inner::loads::bits_at;

// Writes the k low bytes of x at `at`.
pub fn put_bytes(x: u64, k: usize, out: &mut [u8], at: usize)
    requires { at + k ≤ length out.old }
    ensures { out.new ≡ take at out.old ++ (chars_of 8 k x ++ drop (at + k) out.old) }
{
    let mut rest = x;
    for byte in out[at..at + k].iter_mut() {
        *byte = (rest % 0x100) as u8;
        rest = rest / 0x100;
    }
}

// Writes the characters of a view packed from a byte's first bit on: 64 bits a turn, then what is left.
fn pack_view<W: Width>(bytes: &[u8], offset: usize, len: usize, out: &mut [u8])
    requires len_value { first (view_tests W.BITS (length bytes.now) offset len) ≡ Ok tt }
    requires len_in_bounds { up W.BITS len ≤ length out.old }
    ensures { out.new ≡ packed W.BITS (chars W.BITS bytes.now offset len) ++ drop (up W.BITS len) out.old }
{
    let w = W::BITS;
    let p = w * offset;
    let bits = w * len;
    let whole = bits / 64;
    for i in 0..whole {
        put_bytes(bits_at(bytes, p + 64 * i, 64), 8, out, 8 * i);
    }
    let left = bits % 64;
    put_bytes(
        bits_at(bytes, p + 64 * whole, left),
        (left + 7) / 8,
        out,
        8 * whole,
    );
}

// Writes the characters of a view packed at byte `at`.
pub(crate) fn write_track<W: Width>(
    bytes: &[u8],
    offset: usize,
    len: usize,
    out: &mut [u8],
    at: usize,
)
    requires len_value { first (view_tests W.BITS (length bytes.now) offset len) ≡ Ok tt }
    requires len_in_bounds { at + up W.BITS len ≤ length out.old }
    ensures { out.new ≡
        take at out.old ++ (packed W.BITS (chars W.BITS bytes.now offset len) ++ drop (at + up W.BITS len) out.old) }
{
    pack_view::<W>(bytes, offset, len, &mut out[at..]);
}

// Whether the bits behind n characters are zero.
pub(crate) fn spare_clear<W: Width>(n: usize, track: &[u8]) -> bool
    requires { length track.now ≡ up W.BITS n }
    ensures { result ≡ spare_clear W.BITS n track.now }
{
    let end = Chars::new(n);
    let k = within_byte::<W>(end).count();
    if k == 0 {
        return true;
    }
    let last = byte_of::<W>(end).count();
    track[last] >> (W::BITS * k) == 0
}

// Writes a track into a store's buffer, and 48 zeros behind it.
pub(crate) fn fill(track: &[u8], buffer: &mut [u8])
    requires { length track.now + trailing ≤ length buffer.old }
    ensures { buffer.new ≡ filled_with track.now buffer.old }
{
    let n = track.len();
    copy(track, buffer);
    zero_run(buffer, n, n + TRAILING);
}
