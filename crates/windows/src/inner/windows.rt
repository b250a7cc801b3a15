// Flag windows: filling all steps from `skip` on.
ghost use Rattle.std.specs.Prelude.{Ok, ◌≡◌, ◌-◌, ◌*◌, ◌^◌, ◌≤◌, length};
ghost use Rattle.codes.specs.Codes.{chars};
ghost use Rattle.codes.specs.Refusals.{first, view_tests};
ghost use Rattle.lanes.specs.Lanes.{lane, steps};
ghost use Rattle.windows.specs.Windows.{window_tests, windows_filled, windows_answer};
ghost use Rattle.streams.specs.Answers.{filled_says};

use crate::inner::marks::write_windows;
use crate::inner::outcomes::{partial, window_outcome};
use codes::inner::bits::smaller;
use codes::refusals::Refusal;
use codes::units::Chars;
use codes::widths::Flags;
use lanes::inner::shapes::plan_of;
use lanes::inner::turns::lane_words;
use streams::answers::Filled;

// Writes the windows of the steps from `skip` on, 64 steps of flags at a time.
fn window_lanes(
    bytes: &[u8],
    offset: usize,
    len: usize,
    n: usize,
    k: usize,
    skip: usize,
    steps: usize,
    out: &mut [u32],
)
    requires len_value { first (view_tests 1 (length bytes.now) offset len) ≡ Ok tt }
    requires n_bound { (n ≤ 2 ^ 29) × (k ≤ 96) × (steps ≤ 2 ^ 32) }
    requires skip_in_bounds { 8 * (steps - skip) ≤ length out.old }
    ensures { out.new ≡ windows_filled (chars 1 bytes.now offset len) n k skip (steps - skip) out.old }
{
    let mut marks: [usize; 8] = [0; 8];
    for j in (0..steps).step_by(64) {
        let words = lane_words::<Flags>(64, bytes, offset, len, n, j);
        let count = smaller(64, steps - j);
        let next = write_windows(words, count, j, k, skip, marks, out);
        marks = next;
    }
}

// What filling windows answers where its buffer has so much room.
pub(crate) fn windows_answer(
    bytes: &[u8],
    offset: Chars,
    len: Chars,
    context: Chars,
    k: Chars,
    skip: usize,
    room: usize,
) -> Result<Filled, Refusal>
    ensures { filled_says result ≡ windows_answer bytes.now offset.0 len.0 context.0 k.0 skip room }
{
    window_outcome(bytes, offset, len, context, k)?;
    let p = plan_of::<Flags>(len, context, 1);
    if p.steps < skip {
        return Err(Refusal::BadStream);
    }
    if partial(p.steps, context, k, skip) {
        return Err(Refusal::Partial);
    }
    let left = p.steps - skip;
    if room < 8 * left {
        return Err(Refusal::NoRoom);
    }
    Ok(Filled {
        steps: left,
        padding: Chars::new(p.padding),
    })
}

// The buffer of windows that are not refused.
pub(crate) fn window_one(
    bytes: &[u8],
    offset: Chars,
    len: Chars,
    context: Chars,
    k: Chars,
    skip: usize,
    out: &mut [u32],
)
    requires k_value { first (window_tests bytes.now offset.0 len.0 context.0 k.0) ≡ Ok tt }
    requires skip_in_bounds { 8 * (steps 1 len.0 context.0 1 - skip) ≤ length out.old }
    ensures { out.new ≡ windows_filled (chars 1 bytes.now offset.0 len.0) (lane 1 len.0 context.0 1) k.0 skip
        (steps 1 len.0 context.0 1 - skip) out.old }
{
    let p = plan_of::<Flags>(len, context, 1);
    let n = p.lane;
    let count = p.steps;
    window_lanes(
        bytes,
        offset.count(),
        len.count(),
        n,
        k.count(),
        skip,
        count,
        out,
    );
}
