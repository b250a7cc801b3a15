// A view, written to a lent buffer.
ghost use Rattle.std.specs.Prelude.{◌≡◌};
ghost use Rattle.codes.specs.Refusals.{if_done};
ghost use Rattle.writes.specs.Writes.{unpack_outcome, unpacked_over, flip_outcome, flipped_over};

use crate::inner::letters::write_letters;
use crate::inner::reverse::write_flipped;
use codes::refusals::Refusal;
use codes::units::{Chars, TRAILING};
use codes::widths::{Bases, Width};
use fields::inner::parts::view_outcome;

// Writes the capital letters of a view of bases to the front of a buffer.
pub fn unpack(bytes: &[u8], offset: Chars, len: Chars, out: &mut [u8]) -> Result<(), Refusal>
    ensures outcome { result ≡ unpack_outcome bytes.now offset.0 len.0 out.old }
    ensures bytes { out.new ≡ if_done result (unpacked_over bytes.now offset.0 len.0 out.old) out.old }
{
    view_outcome::<Bases>(bytes, offset, len)?;
    let n = len.count();
    if out.len() < n {
        return Err(Refusal::NoRoom);
    }
    write_letters(bytes, offset.count(), n, out);
    Ok(())
}

// The view reversed, bases complemented, written to `out`: ceil(length / C8) bytes, then 48 zeros.
pub fn to_revcomp<W: Width>(
    bytes: &[u8],
    offset: Chars,
    len: Chars,
    out: &mut [u8],
) -> Result<(), Refusal>
    ensures outcome { result ≡ flip_outcome W.BITS bytes.now offset.0 len.0 out.old }
    ensures bytes { out.new ≡ if_done result (flipped_over W.BITS bytes.now offset.0 len.0 out.old) out.old }
{
    view_outcome::<W>(bytes, offset, len)?;
    let n = len.count();
    // By the view's bits, as it is read: no division by the width.
    let used = (W::BITS * n + 7) / 8;
    if out.len() < used + TRAILING {
        return Err(Refusal::NoRoom);
    }
    write_flipped::<W>(bytes, offset.count(), n, used, out);
    Ok(())
}
