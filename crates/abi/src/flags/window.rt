// Flag windows over a view.
ghost use Rattle.std.specs.Prelude.{◌≡◌, length};
ghost use Rattle.codes.specs.Refusals.{number_of};
ghost use Rattle.given.specs.Face.{said, state};
ghost use Rattle.windows.specs.Windows.{windows_answer, windows_after, run_outcome, run_answers, run_state};

use plain::inner::window;

#[unsafe(no_mangle)]
pub extern "C" fn tsiv_flags_fill_windows(
    bytes: &[u8],
    offset: usize,
    len: usize,
    context: usize,
    k: usize,
    skip: usize,
    out: &mut [u32],
    steps: &mut usize,
    padding: &mut usize,
) -> u32
    ensures answer { said result (steps.new, padding.new)
        ≡ windows_answer bytes.now offset len context k skip (length out.old) }
    ensures out { out.new ≡ windows_after bytes.now offset len context k skip out.old }
{
    window::fill(bytes, offset, len, context, k, skip, out, steps, padding)
}

#[unsafe(no_mangle)]
pub extern "C" fn tsiv_flags_step_windows(
    bytes: &[u8],
    offset: usize,
    len: usize,
    context: usize,
    k: usize,
    counts: &mut [u32; 8],
    step: &mut usize,
    answers: &mut [u32; 8],
) -> u32
    ensures number { result
        ≡ number_of (run_outcome bytes.now offset len context k (state counts.old step.old)) }
    ensures answers { answers.new
        ≡ run_answers bytes.now offset len context k (state counts.old step.old) }
    ensures state { state counts.new step.new
        ≡ run_state bytes.now offset len context k (state counts.old step.old) }
{
    window::step(bytes, offset, len, context, k, counts, step, answers)
}
