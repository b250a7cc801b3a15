// Windows of flags: width 1.
ghost use Rattle.std.specs.Prelude.{◌≡◌, length};
ghost use Rattle.codes.specs.Refusals.{number_of};
ghost use Rattle.streams.specs.Answers.{filled_says};
ghost use Rattle.windows.specs.Answers.{running, ran_says};
ghost use Rattle.windows.specs.Windows.{windows_answer, windows_after, run_outcome, run_answers, run_state};

use crate::answers::{Ran, Windows};
use crate::inner::outcomes::window_outcome;
use crate::inner::running::run;
use crate::inner::windows::{window_one, windows_answer};
use codes::refusals::Refusal;
use codes::units::Chars;
use streams::answers::Filled;

// Writes whether a window of k flags, ending at step j of lane l, holds a set one, to entry 8 (j - skip) + l, from step `skip` on.
pub fn fill_windows(
    bytes: &[u8],
    offset: Chars,
    len: Chars,
    context: Chars,
    k: Chars,
    skip: usize,
    out: &mut [u32],
) -> Result<Filled, Refusal>
    ensures answer { filled_says result ≡ windows_answer bytes.now offset.0 len.0 context.0 k.0 skip (length out.old) }
    ensures out { out.new ≡ windows_after bytes.now offset.0 len.0 context.0 k.0 skip out.old }
{
    let filled = windows_answer(bytes, offset, len, context, k, skip, out.len())?;
    window_one(bytes, offset, len, context, k, skip, out);
    Ok(filled)
}

// The windows of the step that the state names, and the next state.
pub fn step_windows(
    bytes: &[u8],
    offset: Chars,
    len: Chars,
    context: Chars,
    k: Chars,
    state: Windows,
) -> Result<Ran, Refusal>
    ensures number { (ran_says result).no ≡ number_of (run_outcome bytes.now offset.0 len.0 context.0 k.0 (running state)) }
    ensures answers { (ran_says result).values.0 ≡ run_answers bytes.now offset.0 len.0 context.0 k.0 (running state) }
    ensures state { (ran_says result).values.1 ≡ run_state bytes.now offset.0 len.0 context.0 k.0 (running state) }
{
    window_outcome(bytes, offset, len, context, k)?;
    run(bytes, offset, len, context, k, state)
}
