// Two views: whether they are refused.
ghost use Rattle.std.specs.Prelude.{◌≡◌};
ghost use Rattle.order.specs.Order.{pair_outcome};

use codes::inner::checks::{bad_view, too_long};
use codes::refusals::Refusal;
use codes::units::Chars;
use codes::widths::Width;

// The refusals of two views.
pub fn pair_outcome<W: Width>(
    a: &[u8],
    ao: Chars,
    al: Chars,
    b: &[u8],
    bo: Chars,
    bl: Chars,
) -> Result<(), Refusal>
    ensures { result ≡ pair_outcome W.BITS a.now ao.0 al.0 b.now bo.0 bl.0 }
{
    let m = a.len();
    let n = b.len();
    if too_long(m) {
        return Err(Refusal::TooLong);
    }
    if too_long(n) {
        return Err(Refusal::TooLong);
    }
    if bad_view::<W>(m, ao, al) {
        return Err(Refusal::BadView);
    }
    if bad_view::<W>(n, bo, bl) {
        return Err(Refusal::BadView);
    }
    Ok(())
}
