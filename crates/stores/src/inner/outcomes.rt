// Whether a call is refused, and why: the tests of the refusal table in their order, with no sum that could wrap.
ghost use Rattle.std.specs.Prelude.{[], ◌∷◌, ◌≡◌, ◌+◌, ◌^◌, ◌≤◌, ◌<◌};
ghost use Rattle.codes.specs.Codes.{up, trailing};
ghost use Rattle.codes.specs.Refusals.{first, too_long, bad_store, bad_view, bad_end, no_room};
ghost use Rattle.runs.specs.Runs.{seq_start};
ghost use Rattle.stores.specs.Stores.{no_store};

use codes::inner::checks::{bad_store, bad_view, too_long};
use codes::inner::counts::{chars_in, within_byte};
use codes::refusals::Refusal;
use codes::units::{Chars, TRAILING};
use codes::widths::Width;

// A clear of a buffer of `size` bytes.
pub(crate) fn clear_outcome(size: usize) -> Result<(), Refusal>
    ensures { result ≡ first (too_long size ∷ no_room size trailing ∷ []) }
{
    if too_long(size) {
        return Err(Refusal::TooLong);
    }
    if size < TRAILING {
        return Err(Refusal::NoRoom);
    }
    Ok(())
}

// Whether n characters and 48 bytes behind do not fit a buffer of `size` bytes.
fn no_room<W: Width>(size: usize, n: usize) -> bool
    requires { trailing ≤ size }
    ensures { result ≡ (no_store W.BITS size n).0 }
{
    size - TRAILING < Chars::new(n).bytes_as::<W>().count()
}

// A push of `count` letters.
pub fn letters_outcome<W: Width>(size: usize, len: Chars, count: usize) -> Result<(), Refusal>
    requires { count < 2 ^ 63 }
    ensures { result ≡ first (too_long size ∷ bad_store W.BITS size len.0 ∷ no_store W.BITS size (len.0 + count) ∷ []) }
{
    if too_long(size) {
        return Err(Refusal::TooLong);
    }
    if bad_store::<W>(size, len) {
        return Err(Refusal::BadStore);
    }
    if no_room::<W>(size, len.count() + count) {
        return Err(Refusal::NoRoom);
    }
    Ok(())
}

// An overwrite of `count` characters from `start` on, or a cut to `count` from 0 on.
pub fn end_outcome<W: Width>(
    size: usize,
    len: Chars,
    start: Chars,
    count: usize,
) -> Result<(), Refusal>
    ensures { result ≡ first (too_long size ∷ bad_store W.BITS size len.0 ∷ bad_end len.0 (start.0 + count) ∷ []) }
{
    if too_long(size) {
        return Err(Refusal::TooLong);
    }
    if bad_store::<W>(size, len) {
        return Err(Refusal::BadStore);
    }
    let n = len.count();
    let at = start.count();
    if n < at {
        return Err(Refusal::BadRange);
    }
    if n - at < count {
        return Err(Refusal::BadRange);
    }
    Ok(())
}

// The place where a view's characters start.
pub fn seq_start<W: Width>(len: Chars, offset: Chars) -> usize
    requires { up W.BITS len.0 ≤ 2 ^ 28 }
    ensures { result ≡ seq_start W.BITS len.0 offset.0 }
{
    let behind = chars_in::<W>(len.bytes_as::<W>()).count();
    behind + within_byte::<W>(offset).count()
}

// A push of `count` characters of a view of `bytes` bytes.
pub fn seq_outcome<W: Width>(
    size: usize,
    len: Chars,
    bytes: usize,
    offset: Chars,
    count: Chars,
) -> Result<(), Refusal>
    ensures { result ≡ first (too_long size ∷ too_long bytes ∷ bad_store W.BITS size len.0
        ∷ bad_view W.BITS bytes offset.0 count.0 ∷ no_store W.BITS size (seq_start W.BITS len.0 offset.0 + count.0) ∷ []) }
{
    if too_long(size) {
        return Err(Refusal::TooLong);
    }
    if too_long(bytes) {
        return Err(Refusal::TooLong);
    }
    if bad_store::<W>(size, len) {
        return Err(Refusal::BadStore);
    }
    if bad_view::<W>(bytes, offset, count) {
        return Err(Refusal::BadView);
    }
    if no_room::<W>(size, seq_start::<W>(len, offset) + count.count()) {
        return Err(Refusal::NoRoom);
    }
    Ok(())
}
