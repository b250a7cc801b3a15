// Flag windows over a view.
ghost use Rattle.std.specs.Prelude.{◌≡◌, length};
ghost use Rattle.codes.specs.Refusals.{number_of};
ghost use Rattle.given.specs.Face.{said, state};
ghost use Rattle.windows.specs.Windows.{windows_answer, windows_after, run_outcome, run_answers, run_state};

use codes::units::Chars;
use given::inner::give;
use windows::answers::{Ran, Windows};
use windows::flags::{fill_windows, step_windows};

// Beside a refusal: zero answers, zero counts and step 0.
const AT_ZERO: Ran = Ran {
    answers: [0; 8],
    state: Windows {
        counts: [0; 8],
        step: 0,
    },
};

pub fn fill(
    bytes: &[u8],
    offset: usize,
    len: usize,
    context: usize,
    k: usize,
    skip: usize,
    out: &mut [u32],
    steps: &mut usize,
    padding: &mut usize,
) -> u32
    ensures answer { said result (steps.new, padding.new)
        ≡ windows_answer bytes.now offset len context k skip (length out.old) }
    ensures out { out.new ≡ windows_after bytes.now offset len context k skip out.old }
{
    give::filled(
        fill_windows(
            bytes,
            Chars::new(offset),
            Chars::new(len),
            Chars::new(context),
            Chars::new(k),
            skip,
            out,
        ),
        steps,
        padding,
    )
}

pub fn step(
    bytes: &[u8],
    offset: usize,
    len: usize,
    context: usize,
    k: usize,
    counts: &mut [u32; 8],
    step: &mut usize,
    answers: &mut [u32; 8],
) -> u32
    ensures number { result
        ≡ number_of (run_outcome bytes.now offset len context k (state counts.old step.old)) }
    ensures answers { answers.new
        ≡ run_answers bytes.now offset len context k (state counts.old step.old) }
    ensures state { state counts.new step.new
        ≡ run_state bytes.now offset len context k (state counts.old step.old) }
{
    let before = *counts;
    let state = Windows {
        counts: before,
        step: *step,
    };
    let ran = step_windows(
        bytes,
        Chars::new(offset),
        Chars::new(len),
        Chars::new(context),
        Chars::new(k),
        state,
    );
    let (no, ran) = give::split(ran, AT_ZERO);
    let windows = ran.answers;
    let next = ran.state;
    let after = next.counts;
    *answers = windows;
    *counts = after;
    *step = next.step;
    no
}
