// Two views compared, by words: where they first differ tells the order and the common length.
ghost use Rattle.std.specs.Prelude.{Ok, ◌≡◌};
ghost use Rattle.codes.specs.Codes.{chars};
ghost use Rattle.order.specs.Order.{common, pair_outcome, pair_order};

use crate::answers::Compared;
use codes::inner::bits::{low_bits, smaller};
use codes::inner::counts::over_width;
use codes::units::Chars;
use codes::widths::Width;
use fields::inner::loads::peek_at;

// Views that are not refused, 56 bits a turn, which are 7 bytes, up to the first that differ. The character that they stand in decides; where
// there is none, the lengths do.
pub(crate) fn compare_views<W: Width>(
    a: &[u8],
    ao: usize,
    al: usize,
    b: &[u8],
    bo: usize,
    bl: usize,
) -> Compared
    requires { pair_outcome W.BITS a.now ao al b.now bo bl ≡ Ok tt }
    ensures order { result.order ≡ pair_order W.BITS a.now ao al b.now bo bl }
    ensures common { result.common.0 ≡ common (chars W.BITS a.now ao al) (chars W.BITS b.now bo bl) }
{
    let w = W::BITS;
    let n = smaller(al, bl);
    let turn = over_width::<W>(56);
    let p = w * ao;
    let q = w * bo;
    for t in 0..(n + (turn - 1)) / turn {
        let x = peek_at(a, p / 8 + 7 * t, p % 8);
        let y = peek_at(b, q / 8 + 7 * t, q % 8);
        let z = x ^ y;
        if z % 0x100_0000_0000_0000 != 0 {
            let k = over_width::<W>(u64::trailing_zeros(z) as usize);
            let common = turn * t + k;
            if n <= common {
                break;
            }
            let s = w * k;
            return Compared {
                order: low_bits(x >> s, w).cmp(&low_bits(y >> s, w)),
                common: Chars::new(common),
            };
        }
    }
    Compared {
        order: al.cmp(&bl),
        common: Chars::new(n),
    }
}
