// The refusals of a stream over a view.
ghost use Rattle.std.specs.Prelude.{◌≡◌};
ghost use Rattle.codes.specs.Refusals.{first};
ghost use Rattle.lanes.specs.Lanes.{stream_tests};

use crate::inner::shapes::{bad_delays, bad_shape};
use codes::refusals::Refusal;
use codes::units::Chars;
use codes::widths::Width;
use fields::inner::parts::view_outcome;

// The refusals of a view, a context, a factor and two delays.
pub fn stream_outcome<W: Width>(
    bytes: &[u8],
    offset: Chars,
    len: Chars,
    context: Chars,
    factor: usize,
    d: Chars,
    e: Chars,
) -> Result<(), Refusal>
    ensures { result ≡ first (stream_tests W.BITS bytes.now offset.0 len.0 context.0 factor d.0 e.0) }
{
    view_outcome::<W>(bytes, offset, len)?;
    if bad_shape(context, factor) {
        return Err(Refusal::BadStream);
    }
    if bad_delays(d, e) {
        return Err(Refusal::BadStream);
    }
    Ok(())
}
