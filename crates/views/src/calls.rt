// Calls on bytes, an offset and a length: the view that they are is read, whole or sliced.
ghost use Rattle.std.specs.Prelude.{◌≡◌};
ghost use Rattle.codes.specs.Answers.{says, word128_says};
ghost use Rattle.fields.specs.Fields.{as_u64, as_u128, flipped_as_u64, flipped_as_u128};
ghost use Rattle.views.specs.Views.{got_sliced};

use crate::view::View;
use codes::inner::bits::Pair;
use codes::refusals::Refusal;
use codes::units::Chars;
use codes::widths::Width;
use fields::inner::parts::slice_outcome;
use fields::inner::words;

// Character i of the characters from `start` up to `end` of a view: a view is made, sliced, normalised and read.
pub fn get_sliced<W: Width>(
    bytes: &[u8],
    offset: Chars,
    len: Chars,
    start: Chars,
    end: Chars,
    i: Chars,
) -> Result<u8, Refusal>
    ensures { says result ≡ got_sliced W.BITS bytes.now offset.0 len.0 start.0 end.0 i.0 }
{
    slice_outcome::<W>(bytes, offset, len, start, end)?;
    let made = View::new::<W>(bytes, offset, len);
    let cut = made.view.slice::<W>(start, end);
    let normal = cut.view.normalise::<W>();
    normal.view.get::<W>(i)
}

// The word of a view of 0 to 32 bases, or of 0 to 64 flags.
pub fn as_u64<W: Width>(bytes: &[u8], offset: Chars, len: Chars) -> Result<u64, Refusal>
    ensures { says result ≡ as_u64 W.BITS bytes.now offset.0 len.0 }
{
    words::as_u64::<W>(bytes, offset, len)
}

// The word of a view of 0 to 64 bases, or of 0 to 128 flags, in two halves.
pub fn as_u128<W: Width>(bytes: &[u8], offset: Chars, len: Chars) -> Result<Pair, Refusal>
    ensures { word128_says result ≡ as_u128 W.BITS bytes.now offset.0 len.0 }
{
    words::as_u128::<W>(bytes, offset, len)
}

// The view reversed as a word, bases complemented; 1 to 32 bases, or 1 to 64 flags.
pub fn revcomp_as_u64<W: Width>(bytes: &[u8], offset: Chars, len: Chars) -> Result<u64, Refusal>
    ensures { says result ≡ flipped_as_u64 W.BITS bytes.now offset.0 len.0 }
{
    words::flipped_as_u64::<W>(bytes, offset, len)
}

// The view reversed as a word of two halves, bases complemented; 1 to 64 bases, or 1 to 128 flags.
pub fn revcomp_as_u128<W: Width>(bytes: &[u8], offset: Chars, len: Chars) -> Result<Pair, Refusal>
    ensures { word128_says result ≡ flipped_as_u128 W.BITS bytes.now offset.0 len.0 }
{
    words::flipped_as_u128::<W>(bytes, offset, len)
}
