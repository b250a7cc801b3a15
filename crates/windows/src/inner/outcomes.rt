// The refusals of flag windows over a view.
ghost use Rattle.std.specs.Prelude.{◌≡◌, ◌≤◌};
ghost use Rattle.codes.specs.Refusals.{first};
ghost use Rattle.windows.specs.Windows.{window_tests, bad_window, partial};

use codes::refusals::Refusal;
use codes::units::Chars;
use codes::widths::Flags;
use fields::inner::parts::view_outcome;
use lanes::inner::shapes::bad_shape;

// Whether a window's length lies outside its range.
fn bad_window(k: Chars) -> bool
    ensures { result ≡ (bad_window k.0).0 }
{
    let n = k.count();
    if n < 1 {
        return true;
    }
    96 < n
}

// Whether there are steps, and the first from `skip` on, or the context, is too short for a window of k flags.
pub(crate) fn partial(steps: usize, context: Chars, k: Chars, skip: usize) -> bool
    requires { 1 ≤ k.0 }
    ensures { result ≡ (partial steps context.0 k.0 skip).0 }
{
    if steps == 0 {
        return false;
    }
    let n = k.count();
    if skip < n - 1 {
        return true;
    }
    context.count() < n
}

// The refusals of flag windows: a view of flags, a context and a window's length.
pub(crate) fn window_outcome(
    bytes: &[u8],
    offset: Chars,
    len: Chars,
    context: Chars,
    k: Chars,
) -> Result<(), Refusal>
    ensures { result ≡ first (window_tests bytes.now offset.0 len.0 context.0 k.0) }
{
    view_outcome::<Flags>(bytes, offset, len)?;
    if bad_shape(context, 1) {
        return Err(Refusal::BadStream);
    }
    if bad_window(k) {
        return Err(Refusal::BadStream);
    }
    Ok(())
}
