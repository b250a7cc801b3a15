// Stepping flag windows: the state is handed in and the next one handed back.
ghost use Rattle.std.specs.Prelude.{Ok, ◌≡◌};
ghost use Rattle.codes.specs.Refusals.{first, number_of};
ghost use Rattle.windows.specs.Answers.{running, ran_says};
ghost use Rattle.windows.specs.Windows.{window_tests, run_outcome, run_answers, run_state};

use crate::answers::{Ran, Windows};
use crate::inner::counts::{answers_of, bad_counts, counts_after};
use codes::refusals::Refusal;
use codes::units::Chars;
use codes::widths::Flags;
use lanes::inner::eight::lanes_at;
use lanes::inner::shapes::plan_of;

// A step over a view, a context and a window's length that are not refused.
pub(crate) fn run(
    bytes: &[u8],
    offset: Chars,
    len: Chars,
    context: Chars,
    k: Chars,
    state: Windows,
) -> Result<Ran, Refusal>
    requires { first (window_tests bytes.now offset.0 len.0 context.0 k.0) ≡ Ok tt }
    ensures number { (ran_says result).no ≡ number_of (run_outcome bytes.now offset.0 len.0 context.0 k.0 (running state)) }
    ensures answers { (ran_says result).values.0 ≡ run_answers bytes.now offset.0 len.0 context.0 k.0 (running state) }
    ensures state { (ran_says result).values.1 ≡ run_state bytes.now offset.0 len.0 context.0 k.0 (running state) }
{
    let p = plan_of::<Flags>(len, context, 1);
    let n = p.lane;
    let j = state.step;
    let counts = state.counts;
    if p.steps <= j {
        return Err(Refusal::BadStream);
    }
    let most = k.count() - 1;
    let o = offset.count();
    let m = len.count();
    let enter = lanes_at::<Flags>(bytes, o, m, n, 0, j);
    let leave = lanes_at::<Flags>(bytes, o, m, n, most, j);
    if bad_counts(most, counts, enter, leave) {
        return Err(Refusal::BadStream);
    }
    let answers = answers_of(counts, enter);
    let next = counts_after(counts, enter, leave);
    Ok(Ran {
        answers,
        state: Windows {
            counts: next,
            step: j + 1,
        },
    })
}
