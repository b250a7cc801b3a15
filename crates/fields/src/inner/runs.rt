// Runs of equal flags, 56 flags at a time: one load.
ghost use Rattle.std.specs.Prelude.{◌≡◌, ◌+◌, ◌-◌, ◌/◌, ◌^◌, ◌≤◌, ◌<◌, length};
ghost use Rattle.codes.specs.Codes.{pick, chars};
ghost use Rattle.fields.specs.Runs.{runs, leading};

use crate::inner::loads::peek;
use codes::inner::bits::smaller;

// The first position from p on whose flag is not as `set` says, and `end` where all are.
pub fn run_end(bytes: &[u8], p: usize, end: usize, set: bool) -> usize
    requires { (p ≤ end) × (end / 8 + 9 ≤ length bytes.now) }
    ensures { result ≡ p + leading (pick set 1 0) (chars 1 bytes.now p (end - p)) }
{
    for at in (p..end).step_by(56) {
        let n = smaller(56, end - at);
        let x = peek(bytes, at);
        let other = if set { !x } else { x };
        let k = u64::trailing_zeros(other) as usize;
        if k < n {
            return at + k;
        }
    }
    end
}

// How many runs the n flags from `first` on have.
pub fn count_runs(bytes: &[u8], first: usize, n: usize) -> usize
    requires { (first + n < 2 ^ 64) × ((first + n) / 8 + 9 ≤ length bytes.now) }
    ensures { result ≡ length (runs (chars 1 bytes.now first n)) }
{
    let end = first + n;
    let mut p = run_end(bytes, first, end, false);
    let mut count: usize = 0;
    // By where each run ends: no range to go over.
    while p < end {
        let q = run_end(bytes, p, end, true);
        p = run_end(bytes, q, end, false);
        count += 1;
    }
    count
}
