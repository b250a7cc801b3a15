// Streams over a view, at any width.
ghost use Rattle.std.specs.Prelude.{[], ◌∷◌, ◌≡◌, length};
ghost use Rattle.codes.specs.Refusals.{number_of};
ghost use Rattle.given.specs.Face.{said};
ghost use Rattle.streams.specs.Streams.{shaped, fill_answer, fill_after, step_outcome, step_lanes};

use codes::units::Chars;
use codes::widths::Width;
use given::inner::give;
use streams::calls;

pub fn shape<W: Width>(
    len: usize,
    context: usize,
    factor: usize,
    lane: &mut usize,
    steps: &mut usize,
    padding: &mut usize,
) -> u32
    ensures { said result (lane.new, steps.new, padding.new) ≡ shaped W.BITS len context factor }
{
    give::shape(
        calls::shape::<W>(Chars::new(len), Chars::new(context), factor),
        lane,
        steps,
        padding,
    )
}

pub fn fill<W: Width>(
    bytes: &[u8],
    offset: usize,
    len: usize,
    context: usize,
    factor: usize,
    out: &mut [u32],
    steps: &mut usize,
    padding: &mut usize,
) -> u32
    ensures answer { said result (steps.new, padding.new)
        ≡ fill_answer W.BITS bytes.now offset len context factor 0 0 (length out.old ∷ []) }
    ensures out { out.new
        ≡ fill_after W.BITS bytes.now offset len context factor 0 0 (length out.old ∷ []) 0 out.old }
{
    give::filled(
        calls::fill::<W>(
            bytes,
            Chars::new(offset),
            Chars::new(len),
            Chars::new(context),
            factor,
            out,
        ),
        steps,
        padding,
    )
}

pub fn fill_delayed<W: Width>(
    bytes: &[u8],
    offset: usize,
    len: usize,
    context: usize,
    factor: usize,
    delay: usize,
    out: &mut [u32],
    delayed: &mut [u32],
    steps: &mut usize,
    padding: &mut usize,
) -> u32
    ensures answer { said result (steps.new, padding.new)
        ≡ fill_answer W.BITS bytes.now offset len context factor delay delay (length out.old ∷ length delayed.old ∷ []) }
    ensures out { out.new ≡ fill_after W.BITS bytes.now offset len context factor delay delay
        (length out.old ∷ length delayed.old ∷ []) 0 out.old }
    ensures delayed { delayed.new ≡ fill_after W.BITS bytes.now offset len context factor delay delay
        (length out.old ∷ length delayed.old ∷ []) delay delayed.old }
{
    give::filled(
        calls::fill_delayed::<W>(
            bytes,
            Chars::new(offset),
            Chars::new(len),
            Chars::new(context),
            factor,
            Chars::new(delay),
            out,
            delayed,
        ),
        steps,
        padding,
    )
}

pub fn fill_delayed_2<W: Width>(
    bytes: &[u8],
    offset: usize,
    len: usize,
    context: usize,
    factor: usize,
    first: usize,
    second: usize,
    out: &mut [u32],
    out1: &mut [u32],
    out2: &mut [u32],
    steps: &mut usize,
    padding: &mut usize,
) -> u32
    ensures answer { said result (steps.new, padding.new) ≡ fill_answer W.BITS bytes.now offset len context factor first second
        (length out.old ∷ length out1.old ∷ length out2.old ∷ []) }
    ensures out { out.new ≡ fill_after W.BITS bytes.now offset len context factor first second
        (length out.old ∷ length out1.old ∷ length out2.old ∷ []) 0 out.old }
    ensures out1 { out1.new ≡ fill_after W.BITS bytes.now offset len context factor first second
        (length out.old ∷ length out1.old ∷ length out2.old ∷ []) first out1.old }
    ensures out2 { out2.new ≡ fill_after W.BITS bytes.now offset len context factor first second
        (length out.old ∷ length out1.old ∷ length out2.old ∷ []) second out2.old }
{
    give::filled(
        calls::fill_delayed_2::<W>(
            bytes,
            Chars::new(offset),
            Chars::new(len),
            Chars::new(context),
            factor,
            Chars::new(first),
            Chars::new(second),
            out,
            out1,
            out2,
        ),
        steps,
        padding,
    )
}

pub fn step<W: Width>(
    bytes: &[u8],
    offset: usize,
    len: usize,
    context: usize,
    factor: usize,
    j: usize,
    lanes: &mut [u32; 8],
) -> u32
    ensures number { result ≡ number_of (step_outcome W.BITS bytes.now offset len context factor 0 0 j) }
    ensures lanes { lanes.new ≡ step_lanes W.BITS bytes.now offset len context factor 0 0 j 0 }
{
    let stepped = calls::step::<W>(
        bytes,
        Chars::new(offset),
        Chars::new(len),
        Chars::new(context),
        factor,
        j,
    );
    give::number(stepped, [0; 8], lanes)
}

pub fn step_delayed<W: Width>(
    bytes: &[u8],
    offset: usize,
    len: usize,
    context: usize,
    factor: usize,
    delay: usize,
    j: usize,
    lanes: &mut [u32; 8],
    lanes1: &mut [u32; 8],
) -> u32
    ensures number { result ≡ number_of (step_outcome W.BITS bytes.now offset len context factor delay delay j) }
    ensures lanes { lanes.new ≡ step_lanes W.BITS bytes.now offset len context factor delay delay j 0 }
    ensures lanes1 { lanes1.new ≡ step_lanes W.BITS bytes.now offset len context factor delay delay j delay }
{
    let stepped = calls::step_delayed::<W>(
        bytes,
        Chars::new(offset),
        Chars::new(len),
        Chars::new(context),
        factor,
        Chars::new(delay),
        j,
    );
    let (no, [plain, late]) = give::split(stepped, [[0; 8]; 2]);
    *lanes = plain;
    *lanes1 = late;
    no
}

pub fn step_delayed_2<W: Width>(
    bytes: &[u8],
    offset: usize,
    len: usize,
    context: usize,
    factor: usize,
    first: usize,
    second: usize,
    j: usize,
    lanes: &mut [u32; 8],
    lanes1: &mut [u32; 8],
    lanes2: &mut [u32; 8],
) -> u32
    ensures number { result ≡ number_of (step_outcome W.BITS bytes.now offset len context factor first second j) }
    ensures lanes { lanes.new ≡ step_lanes W.BITS bytes.now offset len context factor first second j 0 }
    ensures lanes1 { lanes1.new ≡ step_lanes W.BITS bytes.now offset len context factor first second j first }
    ensures lanes2 { lanes2.new ≡ step_lanes W.BITS bytes.now offset len context factor first second j second }
{
    let stepped = calls::step_delayed_2::<W>(
        bytes,
        Chars::new(offset),
        Chars::new(len),
        Chars::new(context),
        factor,
        Chars::new(first),
        Chars::new(second),
        j,
    );
    let (no, [plain, late1, late2]) = give::split(stepped, [[0; 8]; 3]);
    *lanes = plain;
    *lanes1 = late1;
    *lanes2 = late2;
    no
}
