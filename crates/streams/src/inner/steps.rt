// Stepping: the lanes of one step.
ghost use Rattle.std.specs.Prelude.{Ok, ◌≡◌};
ghost use Rattle.codes.specs.Codes.{chars};
ghost use Rattle.lanes.specs.Lanes.{lane, lanes};
ghost use Rattle.streams.specs.Streams.{step_outcome};

use codes::units::Chars;
use codes::widths::Width;
use lanes::inner::eight::lanes_at;
use lanes::inner::shapes::plan_of;

// The lanes of a step that is not refused.
pub(crate) fn step_lanes<W: Width>(
    bytes: &[u8],
    offset: Chars,
    len: Chars,
    context: Chars,
    factor: usize,
    d: Chars,
    j: usize,
) -> [u32; 8]
    requires { step_outcome W.BITS bytes.now offset.0 len.0 context.0 factor 0 0 j ≡ Ok tt }
    ensures { result ≡ lanes (chars W.BITS bytes.now offset.0 len.0) (lane W.BITS len.0 context.0 factor) d.0 j }
{
    let p = plan_of::<W>(len, context, factor);
    lanes_at::<W>(bytes, offset.count(), len.count(), p.lane, d.count(), j)
}
