// Streams over a view of flags.
ghost use Rattle.std.specs.Prelude.{[], ◌∷◌, ◌≡◌, length};
ghost use Rattle.codes.specs.Refusals.{number_of};
ghost use Rattle.given.specs.Face.{said};
ghost use Rattle.streams.specs.Streams.{shaped, fill_answer, fill_after, step_outcome, step_lanes};

use codes::widths::Flags;
use face::inner::stream;

#[unsafe(no_mangle)]
pub extern "C" fn tsiv_flags_shape(
    len: usize,
    context: usize,
    factor: usize,
    lane: &mut usize,
    steps: &mut usize,
    padding: &mut usize,
) -> u32
    ensures { said result (lane.new, steps.new, padding.new) ≡ shaped 1 len context factor }
{
    stream::shape::<Flags>(len, context, factor, lane, steps, padding)
}

#[unsafe(no_mangle)]
pub extern "C" fn tsiv_flags_fill(
    bytes: &[u8],
    offset: usize,
    len: usize,
    context: usize,
    factor: usize,
    out: &mut [u32],
    steps: &mut usize,
    padding: &mut usize,
) -> u32
    ensures answer { said result (steps.new, padding.new)
        ≡ fill_answer 1 bytes.now offset len context factor 0 0 (length out.old ∷ []) }
    ensures out { out.new
        ≡ fill_after 1 bytes.now offset len context factor 0 0 (length out.old ∷ []) 0 out.old }
{
    stream::fill::<Flags>(bytes, offset, len, context, factor, out, steps, padding)
}

#[unsafe(no_mangle)]
pub extern "C" fn tsiv_flags_fill_delayed(
    bytes: &[u8],
    offset: usize,
    len: usize,
    context: usize,
    factor: usize,
    delay: usize,
    out: &mut [u32],
    delayed: &mut [u32],
    steps: &mut usize,
    padding: &mut usize,
) -> u32
    ensures answer { said result (steps.new, padding.new)
        ≡ fill_answer 1 bytes.now offset len context factor delay delay (length out.old ∷ length delayed.old ∷ []) }
    ensures out { out.new ≡ fill_after 1 bytes.now offset len context factor delay delay
        (length out.old ∷ length delayed.old ∷ []) 0 out.old }
    ensures delayed { delayed.new ≡ fill_after 1 bytes.now offset len context factor delay delay
        (length out.old ∷ length delayed.old ∷ []) delay delayed.old }
{
    stream::fill_delayed::<Flags>(
        bytes, offset, len, context, factor, delay, out, delayed, steps, padding,
    )
}

#[unsafe(no_mangle)]
pub extern "C" fn tsiv_flags_fill_delayed_2(
    bytes: &[u8],
    offset: usize,
    len: usize,
    context: usize,
    factor: usize,
    first: usize,
    second: usize,
    out: &mut [u32],
    out1: &mut [u32],
    out2: &mut [u32],
    steps: &mut usize,
    padding: &mut usize,
) -> u32
    ensures answer { said result (steps.new, padding.new) ≡ fill_answer 1 bytes.now offset len context factor first second
        (length out.old ∷ length out1.old ∷ length out2.old ∷ []) }
    ensures out { out.new ≡ fill_after 1 bytes.now offset len context factor first second
        (length out.old ∷ length out1.old ∷ length out2.old ∷ []) 0 out.old }
    ensures out1 { out1.new ≡ fill_after 1 bytes.now offset len context factor first second
        (length out.old ∷ length out1.old ∷ length out2.old ∷ []) first out1.old }
    ensures out2 { out2.new ≡ fill_after 1 bytes.now offset len context factor first second
        (length out.old ∷ length out1.old ∷ length out2.old ∷ []) second out2.old }
{
    stream::fill_delayed_2::<Flags>(
        bytes, offset, len, context, factor, first, second, out, out1, out2, steps, padding,
    )
}

#[unsafe(no_mangle)]
pub extern "C" fn tsiv_flags_step(
    bytes: &[u8],
    offset: usize,
    len: usize,
    context: usize,
    factor: usize,
    j: usize,
    lanes: &mut [u32; 8],
) -> u32
    ensures number { result ≡ number_of (step_outcome 1 bytes.now offset len context factor 0 0 j) }
    ensures lanes { lanes.new ≡ step_lanes 1 bytes.now offset len context factor 0 0 j 0 }
{
    stream::step::<Flags>(bytes, offset, len, context, factor, j, lanes)
}

#[unsafe(no_mangle)]
pub extern "C" fn tsiv_flags_step_delayed(
    bytes: &[u8],
    offset: usize,
    len: usize,
    context: usize,
    factor: usize,
    delay: usize,
    j: usize,
    lanes: &mut [u32; 8],
    lanes1: &mut [u32; 8],
) -> u32
    ensures number { result ≡ number_of (step_outcome 1 bytes.now offset len context factor delay delay j) }
    ensures lanes { lanes.new ≡ step_lanes 1 bytes.now offset len context factor delay delay j 0 }
    ensures lanes1 { lanes1.new ≡ step_lanes 1 bytes.now offset len context factor delay delay j delay }
{
    stream::step_delayed::<Flags>(bytes, offset, len, context, factor, delay, j, lanes, lanes1)
}

#[unsafe(no_mangle)]
pub extern "C" fn tsiv_flags_step_delayed_2(
    bytes: &[u8],
    offset: usize,
    len: usize,
    context: usize,
    factor: usize,
    first: usize,
    second: usize,
    j: usize,
    lanes: &mut [u32; 8],
    lanes1: &mut [u32; 8],
    lanes2: &mut [u32; 8],
) -> u32
    ensures number { result ≡ number_of (step_outcome 1 bytes.now offset len context factor first second j) }
    ensures lanes { lanes.new ≡ step_lanes 1 bytes.now offset len context factor first second j 0 }
    ensures lanes1 { lanes1.new ≡ step_lanes 1 bytes.now offset len context factor first second j first }
    ensures lanes2 { lanes2.new ≡ step_lanes 1 bytes.now offset len context factor first second j second }
{
    stream::step_delayed_2::<Flags>(
        bytes, offset, len, context, factor, first, second, j, lanes, lanes1, lanes2,
    )
}
