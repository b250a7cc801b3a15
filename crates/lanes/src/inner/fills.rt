// Filling one lent buffer with the steps of a stream at one delay.
ghost use Rattle.std.specs.Prelude.{Ok, ◌≡◌, ◌*◌, ◌^◌, ◌≤◌, length};
ghost use Rattle.codes.specs.Codes.{chars};
ghost use Rattle.codes.specs.Made.{Made};
ghost use Rattle.codes.specs.Refusals.{first, view_tests};
ghost use Rattle.lanes.specs.Lanes.{lane, steps, stream_tests, filled};

use crate::inner::shapes::plan_of;
use crate::inner::turns::{lane_words, write_turn};
use codes::inner::bits::smaller;
use codes::inner::counts::over_width;
use codes::units::Chars;
use codes::widths::Width;

// Zeros below entry `to`.
fn zero_entries(out: &mut [u32], to: usize)
    requires { to ≤ length out.old }
    ensures { Made (λ j. 0) 0 to out.old out.new }
{
    out[..to].fill(0);
}

// Writes the steps at delay d: zeros before it, then a turn of words at a time.
fn fill_lanes<W: Width>(
    bytes: &[u8],
    offset: usize,
    len: usize,
    n: usize,
    d: usize,
    steps: usize,
    out: &mut [u32],
)
    requires len_value { first (view_tests W.BITS (length bytes.now) offset len) ≡ Ok tt }
    requires n_bound { (n ≤ 2 ^ 29) × (steps ≤ 2 ^ 32) × (8 * steps ≤ length out.old) }
    ensures { out.new ≡ filled (chars W.BITS bytes.now offset len) n d steps out.old }
{
    let turn = over_width::<W>(64);
    let start = smaller(d, steps);
    zero_entries(out, 8 * start);
    for j in (start..steps).step_by(turn) {
        let words = lane_words::<W>(turn, bytes, offset, len, n, j - d);
        let count = smaller(turn, steps - j);
        write_turn::<W>(words, count, out, 8 * j);
    }
}

// One delay's buffer of a stream that is not refused.
pub fn fill_one<W: Width>(
    bytes: &[u8],
    offset: Chars,
    len: Chars,
    context: Chars,
    factor: usize,
    d: Chars,
    out: &mut [u32],
)
    requires factor_value { first (stream_tests W.BITS bytes.now offset.0 len.0 context.0 factor 0 0) ≡ Ok tt }
    requires factor_in_bounds { 8 * steps W.BITS len.0 context.0 factor ≤ length out.old }
    ensures { out.new ≡ filled (chars W.BITS bytes.now offset.0 len.0) (lane W.BITS len.0 context.0 factor) d.0
        (steps W.BITS len.0 context.0 factor) out.old }
{
    let p = plan_of::<W>(len, context, factor);
    let n = p.lane;
    let count = p.steps;
    fill_lanes::<W>(bytes, offset.count(), len.count(), n, d.count(), count, out);
}
