// The numbers of a stream: lane length, padding and steps, with no sum that could wrap.
ghost use Rattle.std.specs.Prelude.{Ok, [], ◌∷◌, ◌≡◌, ◌+◌, ◌/◌, ◌^◌, ◌≤◌};
ghost use Rattle.codes.specs.Refusals.{first};
ghost use Rattle.lanes.specs.Plans.{Planned};
ghost use Rattle.lanes.specs.Lanes.{multiple_above, starts, bad_shape, bad_delays};

use codes::inner::counts::power;
use codes::units::Chars;
use codes::widths::Width;

// The most characters of a context or a delay.
const MOST: usize = 0x8000_0000;

#[derive(Clone, Copy)]
pub struct Plan {
    pub lane: usize,
    pub padding: usize,
    pub steps: usize,
}

// Whether the context or the factor lies outside its range.
pub fn bad_shape(context: Chars, factor: usize) -> bool
    ensures { result ≡ (bad_shape context.0 factor).0 }
{
    let c = context.count();
    if c < 1 {
        return true;
    }
    if MOST < c {
        return true;
    }
    if factor < 1 {
        return true;
    }
    2 < factor
}

// Whether a delay lies outside its range, or the first is above the second.
pub(crate) fn bad_delays(first: Chars, second: Chars) -> bool
    ensures { result ≡ (bad_delays first.0 second.0).0 }
{
    let d = first.count();
    let e = second.count();
    if MOST < d {
        return true;
    }
    if MOST < e {
        return true;
    }
    e < d
}

// The windows of the context that start within the length.
fn starts_of(len: usize, context: usize) -> usize
    requires { 1 ≤ context }
    ensures { result ≡ starts len context }
{
    if len < context {
        return 0;
    }
    len - context + 1
}

// The least multiple of 2 ^ e at or above an eighth of s.
fn lane_of(s: usize, e: usize) -> usize
    requires { e ≤ 4 }
    ensures { result ≡ multiple_above (2 ^ e) ((s + 7) / 8) }
{
    let eighth = s / 8 + (s % 8 + 7) / 8;
    (eighth + ((1 << e) - 1)) >> e << e
}

fn numbers_of<W: Width>(len: usize, context: usize, factor: usize) -> Plan
    requires { first (bad_shape context factor ∷ []) ≡ Ok tt }
    ensures { Planned W.BITS len context factor result }
{
    let s = starts_of(len, context);
    let n = lane_of(s, factor - 1 + power::<W>());
    let behind = 8 * (n - s / 8) - s % 8;
    if len < context {
        return Plan {
            lane: n,
            padding: behind,
            steps: 0,
        };
    }
    Plan {
        lane: n,
        padding: behind,
        steps: n + (context - 1),
    }
}

// The numbers of a stream over so many characters.
pub fn plan_of<W: Width>(len: Chars, context: Chars, factor: usize) -> Plan
    requires { first (bad_shape context.0 factor ∷ []) ≡ Ok tt }
    ensures { Planned W.BITS len.0 context.0 factor result }
{
    numbers_of::<W>(len.count(), context.count(), factor)
}
