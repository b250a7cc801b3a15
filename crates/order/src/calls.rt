// Calls on two views of one width.
ghost use Rattle.std.specs.Prelude.{◌≡◌};
ghost use Rattle.fields.specs.Spans.{span_of};
ghost use Rattle.views.specs.Answers.{part_says};
ghost use Rattle.fields.specs.Answers.{numbers_say};
ghost use Rattle.order.specs.Answers.{compared_says, found_says};
ghost use Rattle.order.specs.Order.{compared, found, chosen, numbers_in};

use crate::answers::Compared;
use crate::inner::compare::compare_views;
use crate::inner::find::find_at;
use crate::inner::least::{choose, chosen_numbers, chosen_part};
use crate::inner::pairs::pair_outcome;
use codes::refusals::Refusal;
use codes::units::Chars;
use codes::widths::Width;
use fields::inner::parts::Numbers;
use views::view::Part;

// The order of two views, and the count of their equal leading characters. They are equal where neither comes first.
#[inline]
pub fn compare<W: Width>(
    a: &[u8],
    ao: Chars,
    al: Chars,
    b: &[u8],
    bo: Chars,
    bl: Chars,
) -> Result<Compared, Refusal>
    ensures { compared_says result ≡ compared W.BITS a.now ao.0 al.0 b.now bo.0 bl.0 }
{
    pair_outcome::<W>(a, ao, al, b, bo, bl)?;
    Ok(compare_views::<W>(a, ao.count(), al.count(), b, bo.count(), bl.count()))
}

// The least place of a pattern in a text.
pub fn find<W: Width>(
    text: &[u8],
    to: Chars,
    tl: Chars,
    pattern: &[u8],
    po: Chars,
    pl: Chars,
) -> Result<Option<Chars>, Refusal>
    ensures { found_says result ≡ found W.BITS text.now to.0 tl.0 pattern.now po.0 pl.0 }
{
    pair_outcome::<W>(text, to, tl, pattern, po, pl)?;
    let place = find_at::<W>(
        text,
        to.count(),
        tl.count(),
        pattern,
        po.count(),
        pl.count(),
    );
    Ok(place.map(Chars::new))
}

// The normalised part of whichever view comes first, at a tie the first; empty where a view is refused.
pub fn least<'a, W: Width>(
    a: &'a [u8],
    ao: Chars,
    al: Chars,
    b: &'a [u8],
    bo: Chars,
    bl: Chars,
) -> &'a [u8]
    ensures { span_of result ≡ (chosen W.BITS (span_of a.entry) ao.0 al.0 (span_of b.entry) bo.0 bl.0).values.span }
{
    let second = choose::<W>(a, ao, al, b, bo, bl);
    chosen_part::<W>(a, ao, al, b, bo, bl, second)
}

// The offset and the length in the part that `least` hands back.
pub fn least_numbers<W: Width>(
    a: &[u8],
    ao: Chars,
    al: Chars,
    b: &[u8],
    bo: Chars,
    bl: Chars,
) -> Result<Numbers, Refusal>
    ensures { numbers_say result ≡ numbers_in (chosen W.BITS (span_of a.entry) ao.0 al.0 (span_of b.entry) bo.0 bl.0) }
{
    let second = choose::<W>(a, ao, al, b, bo, bl);
    chosen_numbers::<W>(ao, al, bo, bl, second)
}

// The part and its numbers at once.
pub fn least_part<'a, W: Width>(
    a: &'a [u8],
    ao: Chars,
    al: Chars,
    b: &'a [u8],
    bo: Chars,
    bl: Chars,
) -> Part<'a>
    ensures { part_says result ≡ chosen W.BITS (span_of a.entry) ao.0 al.0 (span_of b.entry) bo.0 bl.0 }
{
    let second = choose::<W>(a, ao, al, b, bo, bl);
    let numbers = chosen_numbers::<W>(ao, al, bo, bl, second);
    let held = chosen_part::<W>(a, ao, al, b, bo, bl, second);
    Part::of(numbers, held, a)
}
