// Words of views, of 64 bits or of 128 as two halves, forward and reversed: a number of 128 bits is two
// halves, as C gives it, so each has two functions.
ghost use Rattle.std.specs.Prelude.{Ok, ◌≡◌, ◌+◌, ◌*◌, ◌^◌, ◌≤◌, length};
ghost use Rattle.codes.specs.Answers.{says, word128_says};
ghost use Rattle.codes.specs.Codes.{chars};
ghost use Rattle.codes.specs.Refusals.{first, view_tests};
ghost use Rattle.codes.specs.Words.{word};
ghost use Rattle.fields.specs.Fields.{word_tests, as_u64, as_u128, flipped_as_u64, flipped_as_u128};

use crate::inner::loads::{bits_at, bits_pair_at};
use crate::inner::parts::view_outcome;
use codes::inner::bits::Pair;
use codes::inner::checks::bad_word;
use codes::inner::counts::over_width;
use codes::inner::flips::{flip_low, flip_low_pair};
use codes::refusals::Refusal;
use codes::units::Chars;
use codes::widths::Width;

// The refusals of a view's word, whose length runs from `least` to what `bits` hold.
fn word_outcome<W: Width>(
    bytes: &[u8],
    offset: Chars,
    len: Chars,
    least: usize,
    bits: usize,
) -> Result<(), Refusal>
    ensures { result ≡ first (word_tests W.BITS (length bytes.now) offset.0 len.0 least bits) }
{
    view_outcome::<W>(bytes, offset, len)?;
    if bad_word(least, over_width::<W>(bits), len) {
        return Err(Refusal::BadWord);
    }
    Ok(())
}

// The word of an accepted view.
fn view_word<W: Width>(bytes: &[u8], offset: Chars, len: Chars) -> u64
    requires len_value { first (view_tests W.BITS (length bytes.now) offset.0 len.0) ≡ Ok tt }
    requires len_bound { W.BITS * len.0 ≤ 64 }
    ensures { result ≡ word W.BITS (chars W.BITS bytes.now offset.0 len.0) }
{
    let w = W::BITS;
    bits_at(bytes, w * offset.count(), w * len.count())
}

// The word of an accepted view, in two halves.
fn view_pair<W: Width>(bytes: &[u8], offset: Chars, len: Chars) -> Pair
    requires len_value { first (view_tests W.BITS (length bytes.now) offset.0 len.0) ≡ Ok tt }
    requires len_bound { W.BITS * len.0 ≤ 128 }
    ensures { result.high * 2 ^ 64 + result.low ≡ word W.BITS (chars W.BITS bytes.now offset.0 len.0) }
{
    let w = W::BITS;
    bits_pair_at(bytes, w * offset.count(), w * len.count())
}

pub fn as_u64<W: Width>(bytes: &[u8], offset: Chars, len: Chars) -> Result<u64, Refusal>
    ensures { says result ≡ as_u64 W.BITS bytes.now offset.0 len.0 }
{
    word_outcome::<W>(bytes, offset, len, 0, 64)?;
    Ok(view_word::<W>(bytes, offset, len))
}

pub fn as_u128<W: Width>(bytes: &[u8], offset: Chars, len: Chars) -> Result<Pair, Refusal>
    ensures { word128_says result ≡ as_u128 W.BITS bytes.now offset.0 len.0 }
{
    word_outcome::<W>(bytes, offset, len, 0, 128)?;
    Ok(view_pair::<W>(bytes, offset, len))
}

pub fn flipped_as_u64<W: Width>(bytes: &[u8], offset: Chars, len: Chars) -> Result<u64, Refusal>
    ensures { says result ≡ flipped_as_u64 W.BITS bytes.now offset.0 len.0 }
{
    word_outcome::<W>(bytes, offset, len, 1, 64)?;
    let x = view_word::<W>(bytes, offset, len);
    Ok(flip_low::<W>(x, len.count()))
}

pub fn flipped_as_u128<W: Width>(bytes: &[u8], offset: Chars, len: Chars) -> Result<Pair, Refusal>
    ensures { word128_says result ≡ flipped_as_u128 W.BITS bytes.now offset.0 len.0 }
{
    word_outcome::<W>(bytes, offset, len, 1, 128)?;
    let x = view_pair::<W>(bytes, offset, len);
    Ok(flip_low_pair::<W>(x.low, x.high, len.count()))
}
