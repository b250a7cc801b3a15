// The refusals of a step and of filling.
ghost use Rattle.std.specs.Prelude.{[], ◌∷◌, ◌≡◌};
ghost use Rattle.streams.specs.Answers.{filled_says};
ghost use Rattle.streams.specs.Streams.{step_outcome, fill_answer};

use crate::answers::Filled;
use codes::refusals::Refusal;
use codes::units::Chars;
use codes::widths::Width;
use lanes::inner::outcomes::stream_outcome;
use lanes::inner::shapes::plan_of;

// The refusals of a stream and of a step.
pub(crate) fn step_outcome<W: Width>(
    bytes: &[u8],
    offset: Chars,
    len: Chars,
    context: Chars,
    factor: usize,
    d: Chars,
    e: Chars,
    j: usize,
) -> Result<(), Refusal>
    ensures { result ≡ step_outcome W.BITS bytes.now offset.0 len.0 context.0 factor d.0 e.0 j }
{
    stream_outcome::<W>(bytes, offset, len, context, factor, d, e)?;
    let p = plan_of::<W>(len, context, factor);
    if p.steps <= j {
        return Err(Refusal::BadStream);
    }
    Ok(())
}

// What filling answers where the least of its buffers has so much room.
pub(crate) fn fill_answer<W: Width>(
    bytes: &[u8],
    offset: Chars,
    len: Chars,
    context: Chars,
    factor: usize,
    d: Chars,
    e: Chars,
    room: usize,
) -> Result<Filled, Refusal>
    ensures { filled_says result ≡ fill_answer W.BITS bytes.now offset.0 len.0 context.0 factor d.0 e.0 (room ∷ []) }
{
    stream_outcome::<W>(bytes, offset, len, context, factor, d, e)?;
    let p = plan_of::<W>(len, context, factor);
    if room < 8 * p.steps {
        return Err(Refusal::NoRoom);
    }
    Ok(Filled {
        steps: p.steps,
        padding: Chars::new(p.padding),
    })
}
