// Between characters, bytes and bits, at any width. A width is a power of two, so all goes by shifts.
ghost use Rattle.std.specs.Prelude.{◌≡◌, ◌*◌, ◌/◌, ◌%◌, ◌^◌, ◌≤◌};
ghost use Rattle.codes.specs.Codes.{per};

use crate::units::{Bytes, Chars};
use crate::widths::Width;

// The power of two that C8 is.
pub fn power<W: Width>() -> usize
    ensures { (2 ^ result ≡ per W.BITS) × (result ≤ 3) }
{
    3 - W::BITS / 2
}

// C8 as a number.
pub(crate) fn eighth<W: Width>() -> usize
    ensures { result ≡ per W.BITS }
{
    1 << power::<W>()
}

// C8, the characters of a byte.
pub fn per_byte<W: Width>() -> Chars
    ensures { result.0 ≡ per W.BITS }
{
    Chars::new(eighth::<W>())
}

// The characters of n bytes.
pub fn chars_in<W: Width>(n: Bytes) -> Chars
    requires { n.0 ≤ 2 ^ 28 }
    ensures { result.0 ≡ n.0 * per W.BITS }
{
    let c = eighth::<W>();
    let k = n.count();
    Chars::new(k * c)
}

// The byte in which a character stands.
pub fn byte_of<W: Width>(at: Chars) -> Bytes
    ensures { result.0 ≡ at.0 / per W.BITS }
{
    let c = eighth::<W>();
    let k = at.count();
    Bytes::new(k / c)
}

// A character's place in its byte.
pub fn within_byte<W: Width>(at: Chars) -> Chars
    ensures { result.0 ≡ at.0 % per W.BITS }
{
    let c = eighth::<W>();
    let k = at.count();
    Chars::new(k % c)
}

// The characters that n bits hold.
pub fn over_width<W: Width>(n: usize) -> usize
    ensures { result ≡ n / W.BITS }
{
    n >> (W::BITS / 2)
}
