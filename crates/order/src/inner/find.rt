// The least place of a pattern in a text: places in turn, and at each the first bits, then one comparison.
ghost use Rattle.std.specs.Prelude.{Ok, ◌≡◌};
ghost use Rattle.codes.specs.Codes.{chars};
ghost use Rattle.order.specs.Order.{pair_outcome, place_of};

use crate::inner::compare::compare_views;
use codes::inner::bits::{low_bits, smaller};
use codes::widths::Width;
use fields::inner::loads::peek;

// The search itself: where the pattern's first bits are not there, or less than the pattern is common, on to the next place; a whole match
// ends it. At most places the first bits, which are loaded once, decide. Within its callers the walk would take more at each place.
#[inline(never)]
pub(crate) fn find_at<W: Width>(
    t: &[u8],
    to: usize,
    tl: usize,
    p: &[u8],
    po: usize,
    pl: usize,
) -> Option<usize>
    requires { pair_outcome W.BITS t.now to tl p.now po pl ≡ Ok tt }
    ensures { result ≡ place_of (chars W.BITS p.now po pl) (chars W.BITS t.now to tl) }
{
    let w = W::BITS;
    if tl < pl {
        return None;
    }
    let count = tl - pl + 1;
    let bits = smaller(w * pl, 56);
    let head = peek(p, w * po);
    'places: for at in 0..count {
        if low_bits(peek(t, w * (to + at)) ^ head, bits) != 0 {
            continue 'places;
        }
        let c = compare_views::<W>(t, to + at, pl, p, po, pl);
        if pl <= c.common.count() {
            return Some(at);
        }
    }
    None
}
