// Streams: eight lanes over a view. Filling and stepping have three calls each, with no, one or two delays, as C has: over a number of delays
// filling would take an array of buffers lent to be written, and `bad_delays` speaks of two.
ghost use Rattle.std.specs.Prelude.{[], ◌∷◌, ◌≡◌, length};
ghost use Rattle.codes.specs.Refusals.{number_of};
ghost use Rattle.streams.specs.Answers.{shape_says, filled_says, lanes_say, delayed_say};
ghost use Rattle.streams.specs.Streams.{shaped, fill_answer, fill_after, step_outcome, step_lanes};

use crate::answers::{Filled, Shape};
use crate::inner::outcomes::{fill_answer, step_outcome};
use crate::inner::steps::step_lanes;
use codes::inner::bits::smaller;
use codes::refusals::Refusal;
use codes::units::Chars;
use codes::widths::Width;
use lanes::inner::fills::fill_one;
use lanes::inner::shapes::{bad_shape, plan_of};

// Lane length, padding and steps.
pub fn shape<W: Width>(len: Chars, context: Chars, factor: usize) -> Result<Shape, Refusal>
    ensures { shape_says result ≡ shaped W.BITS len.0 context.0 factor }
{
    if bad_shape(context, factor) {
        return Err(Refusal::BadStream);
    }
    let p = plan_of::<W>(len, context, factor);
    Ok(Shape {
        lane: Chars::new(p.lane),
        steps: p.steps,
        padding: Chars::new(p.padding),
    })
}

// Writes step j, lane l to entry 8 j + l, for all steps.
pub fn fill<W: Width>(
    bytes: &[u8],
    offset: Chars,
    len: Chars,
    context: Chars,
    factor: usize,
    out: &mut [u32],
) -> Result<Filled, Refusal>
    ensures answer { filled_says result ≡ fill_answer W.BITS bytes.now offset.0 len.0 context.0 factor 0 0 (length out.old ∷ []) }
    ensures out { out.new
        ≡ fill_after W.BITS bytes.now offset.0 len.0 context.0 factor 0 0 (length out.old ∷ []) 0 out.old }
{
    let zero = Chars::new(0);
    let filled = fill_answer::<W>(bytes, offset, len, context, factor, zero, zero, out.len())?;
    fill_one::<W>(bytes, offset, len, context, factor, zero, out);
    Ok(filled)
}

// The same, and a buffer for a delay.
pub fn fill_delayed<W: Width>(
    bytes: &[u8],
    offset: Chars,
    len: Chars,
    context: Chars,
    factor: usize,
    delay: Chars,
    out: &mut [u32],
    delayed: &mut [u32],
) -> Result<Filled, Refusal>
    ensures answer { filled_says result ≡ fill_answer W.BITS bytes.now offset.0 len.0 context.0 factor delay.0 delay.0
        (length out.old ∷ length delayed.old ∷ []) }
    ensures out { out.new ≡ fill_after W.BITS bytes.now offset.0 len.0 context.0 factor delay.0 delay.0
        (length out.old ∷ length delayed.old ∷ []) 0 out.old }
    ensures delayed { delayed.new ≡ fill_after W.BITS bytes.now offset.0 len.0 context.0 factor delay.0 delay.0
        (length out.old ∷ length delayed.old ∷ []) delay.0 delayed.old }
{
    let none = Chars::new(0);
    let room = smaller(out.len(), delayed.len());
    let filled = fill_answer::<W>(bytes, offset, len, context, factor, delay, delay, room)?;
    fill_one::<W>(bytes, offset, len, context, factor, none, out);
    fill_one::<W>(bytes, offset, len, context, factor, delay, delayed);
    Ok(filled)
}

// The same, and a buffer for each of two delays.
pub fn fill_delayed_2<W: Width>(
    bytes: &[u8],
    offset: Chars,
    len: Chars,
    context: Chars,
    factor: usize,
    first: Chars,
    second: Chars,
    out: &mut [u32],
    out1: &mut [u32],
    out2: &mut [u32],
) -> Result<Filled, Refusal>
    ensures answer { filled_says result ≡ fill_answer W.BITS bytes.now offset.0 len.0 context.0 factor first.0 second.0
        (length out.old ∷ length out1.old ∷ length out2.old ∷ []) }
    ensures out { out.new ≡ fill_after W.BITS bytes.now offset.0 len.0 context.0 factor first.0 second.0
        (length out.old ∷ length out1.old ∷ length out2.old ∷ []) 0 out.old }
    ensures out1 { out1.new ≡ fill_after W.BITS bytes.now offset.0 len.0 context.0 factor first.0 second.0
        (length out.old ∷ length out1.old ∷ length out2.old ∷ []) first.0 out1.old }
    ensures out2 { out2.new ≡ fill_after W.BITS bytes.now offset.0 len.0 context.0 factor first.0 second.0
        (length out.old ∷ length out1.old ∷ length out2.old ∷ []) second.0 out2.old }
{
    let none = Chars::new(0);
    let room = smaller(smaller(out.len(), out1.len()), out2.len());
    let filled = fill_answer::<W>(bytes, offset, len, context, factor, first, second, room)?;
    fill_one::<W>(bytes, offset, len, context, factor, none, out);
    fill_one::<W>(bytes, offset, len, context, factor, first, out1);
    fill_one::<W>(bytes, offset, len, context, factor, second, out2);
    Ok(filled)
}

// The eight lanes of step j.
pub fn step<W: Width>(
    bytes: &[u8],
    offset: Chars,
    len: Chars,
    context: Chars,
    factor: usize,
    j: usize,
) -> Result<[u32; 8], Refusal>
    ensures number { (lanes_say result).no ≡ number_of (step_outcome W.BITS bytes.now offset.0 len.0 context.0 factor 0 0 j) }
    ensures lanes { (lanes_say result).values ≡ step_lanes W.BITS bytes.now offset.0 len.0 context.0 factor 0 0 j 0 }
{
    let none = Chars::new(0);
    step_outcome::<W>(bytes, offset, len, context, factor, none, none, j)?;
    Ok(step_lanes::<W>(bytes, offset, len, context, factor, none, j))
}

// The same, and the lanes of a delay.
pub fn step_delayed<W: Width>(
    bytes: &[u8],
    offset: Chars,
    len: Chars,
    context: Chars,
    factor: usize,
    delay: Chars,
    j: usize,
) -> Result<[[u32; 8]; 2], Refusal>
    ensures number { (delayed_say 2 result).no ≡ number_of (step_outcome W.BITS bytes.now offset.0 len.0 context.0 factor delay.0 delay.0 j) }
    ensures lanes { (delayed_say 2 result).values ≡ step_lanes W.BITS bytes.now offset.0 len.0 context.0 factor delay.0 delay.0 j 0
        ∷ step_lanes W.BITS bytes.now offset.0 len.0 context.0 factor delay.0 delay.0 j delay.0 ∷ [] }
{
    step_outcome::<W>(bytes, offset, len, context, factor, delay, delay, j)?;
    let none = Chars::new(0);
    let lanes = step_lanes::<W>(bytes, offset, len, context, factor, none, j);
    let delayed = step_lanes::<W>(bytes, offset, len, context, factor, delay, j);
    Ok([lanes, delayed])
}

// The same, and the lanes of two delays.
pub fn step_delayed_2<W: Width>(
    bytes: &[u8],
    offset: Chars,
    len: Chars,
    context: Chars,
    factor: usize,
    first: Chars,
    second: Chars,
    j: usize,
) -> Result<[[u32; 8]; 3], Refusal>
    ensures number { (delayed_say 3 result).no ≡ number_of (step_outcome W.BITS bytes.now offset.0 len.0 context.0 factor first.0 second.0 j) }
    ensures lanes { (delayed_say 3 result).values ≡ step_lanes W.BITS bytes.now offset.0 len.0 context.0 factor first.0 second.0 j 0
        ∷ step_lanes W.BITS bytes.now offset.0 len.0 context.0 factor first.0 second.0 j first.0
        ∷ step_lanes W.BITS bytes.now offset.0 len.0 context.0 factor first.0 second.0 j second.0 ∷ [] }
{
    step_outcome::<W>(bytes, offset, len, context, factor, first, second, j)?;
    let none = Chars::new(0);
    let lanes = step_lanes::<W>(bytes, offset, len, context, factor, none, j);
    let near = step_lanes::<W>(bytes, offset, len, context, factor, first, j);
    let far = step_lanes::<W>(bytes, offset, len, context, factor, second, j);
    Ok([lanes, near, far])
}
