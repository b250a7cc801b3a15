// The tests of the refusal table that more than one call makes.
ghost use Rattle.std.specs.Prelude.{[], ◌∷◌, ◌≡◌, ◌^◌, ◌≤◌};
ghost use Rattle.codes.specs.Refusals.{first, if_done, too_long, bad_store, bad_view, bad_word};

use crate::inner::counts::chars_in;
use crate::refusals::Refusal;
use crate::units::{Bytes, Chars, TRAILING};
use crate::widths::Width;

// The most bytes of a view, a store's buffer or a stored form to be read.
const MOST: usize = 0x1000_0000;

// Whether n bytes are too many.
pub fn too_long(n: usize) -> bool
    ensures { result ≡ (too_long n).0 }
{
    MOST < n
}

// Whether a store of len characters and 48 bytes behind do not fit n bytes.
pub fn bad_store<W: Width>(n: usize, len: Chars) -> bool
    ensures { result ≡ (bad_store W.BITS n len.0).0 }
{
    if n < TRAILING {
        return true;
    }
    n - TRAILING < len.bytes_as::<W>().count()
}

// Whether a view's characters and 48 bytes behind do not fit its n bytes.
pub fn bad_view<W: Width>(n: usize, offset: Chars, len: Chars) -> bool
    requires { n ≤ 2 ^ 28 }
    ensures { result ≡ (bad_view W.BITS n offset.0 len.0).0 }
{
    if n < TRAILING {
        return true;
    }
    let room = chars_in::<W>(Bytes::new(n - TRAILING)).count();
    let o = offset.count();
    if room < o {
        return true;
    }
    room - o < len.count()
}

// Whether a word's length lies outside its range.
pub fn bad_word(least: usize, most: usize, len: Chars) -> bool
    ensures { result ≡ (bad_word least most len.0).0 }
{
    let k = len.count();
    k < least || most < k
}
