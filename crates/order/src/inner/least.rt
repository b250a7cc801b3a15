// Of two views the one that comes first, at a tie the first, handed back normalised. The views are compared once.
ghost use Rattle.std.specs.Prelude.{◌≡◌, ◌%◌};
ghost use Rattle.codes.specs.Answers.{says_by};
ghost use Rattle.codes.specs.Codes.{per, pick};
ghost use Rattle.fields.specs.Answers.{numbers_say};
ghost use Rattle.fields.specs.Spans.{span_of};
ghost use Rattle.order.specs.Order.{choice, chosen};

use crate::calls::compare;
use codes::inner::counts::within_byte;
use codes::refusals::Refusal;
use codes::units::Chars;
use codes::widths::Width;
use fields::inner::parts::{Numbers, accepted_part};

// Whether the second of two views comes first: where it is smaller. At a tie the first does.
pub fn choose<W: Width>(
    a: &[u8],
    ao: Chars,
    al: Chars,
    b: &[u8],
    bo: Chars,
    bl: Chars,
) -> Result<bool, Refusal>
    ensures { result ≡ choice W.BITS a.now ao.0 al.0 b.now bo.0 bl.0 }
{
    let compared = compare::<W>(a, ao, al, b, bo, bl)?;
    Ok(compared.order.is_gt())
}

// The numbers of its part.
pub(crate) fn chosen_numbers<W: Width>(
    ao: Chars,
    al: Chars,
    bo: Chars,
    bl: Chars,
    second: Result<bool, Refusal>,
) -> Result<Numbers, Refusal>
    ensures { numbers_say result ≡ says_by (λ b. pick b (bo.0 % per W.BITS, bl.0) (ao.0 % per W.BITS, al.0)) (0, 0) second }
{
    let (offset, len) = if second? { (bo, bl) } else { (ao, al) };
    Ok(Numbers {
        offset: within_byte::<W>(offset),
        len,
    })
}

// The bytes of its part, and none of the first's beside a refusal.
pub(crate) fn chosen_part<'a, W: Width>(
    a: &'a [u8],
    ao: Chars,
    al: Chars,
    b: &'a [u8],
    bo: Chars,
    bl: Chars,
    second: Result<bool, Refusal>,
) -> &'a [u8]
    requires { second ≡ choice W.BITS a.now ao.0 al.0 b.now bo.0 bl.0 }
    ensures { span_of result ≡ (chosen W.BITS (span_of a.entry) ao.0 al.0 (span_of b.entry) bo.0 bl.0).values.span }
{
    match second {
        Err(_) => &a[0..0],
        Ok(false) => accepted_part::<W>(a, ao, al),
        Ok(true) => accepted_part::<W>(b, bo, bl),
    }
}
