// Lane counts of running windows: the flags that enter, those that leave, and what a step answers.
ghost use Rattle.std.specs.Prelude.{◌||◌, ◌≡◌, ℕ, ◌+◌, ◌-◌, ◌≤◌, ◌<◌, ltb, get_or};
ghost use Rattle.codes.specs.Codes.{pick, tab};
ghost use Rattle.windows.specs.Windows.{any_lane};

fn wide(x: u32) -> usize
    ensures { result ≡ x }
{
    x as usize
}

// Whether a count is above `most`, or with what enters below what leaves.
fn bad_lane(most: usize, count: usize, enter: usize, leave: usize) -> bool
    requires { (most ≤ 95) × (enter < 16) }
    ensures { result ≡ (ltb most count || ltb (count + enter) leave) }
{
    if most < count {
        return true;
    }
    count + enter < leave
}

// Whether that holds of a lane.
pub(crate) fn bad_counts(most: usize, counts: [u32; 8], enter: [u32; 8], leave: [u32; 8]) -> bool
    requires { (most ≤ 95) × ((l : ℕ) → get_or enter l 0 < 16) }
    ensures { result ≡ any_lane 8 (λ l. ltb most (get_or counts l 0) || ltb (get_or counts l 0 + get_or enter l 0) (get_or leave l 0)) }
{
    for l in 0..8 {
        if bad_lane(most, wide(counts[l]), wide(enter[l]), wide(leave[l])) {
            return true;
        }
    }
    false
}

// All 32 bits set where the sum is above 0, else 0.
fn above(sum: u32) -> u32
    ensures { result ≡ pick (ltb 0 sum) 0xffff_ffff 0 }
{
    if 0 < sum { 0xffff_ffff } else { 0 }
}

// What a step answers.
pub(crate) fn answers_of(counts: [u32; 8], enter: [u32; 8]) -> [u32; 8]
    requires { (l : ℕ) → l < 8 → (get_or counts l 0 ≤ 95) × (get_or enter l 0 < 16) }
    ensures { result ≡ tab 8 (λ l. pick (ltb 0 (get_or counts l 0 + get_or enter l 0)) 0xffff_ffff 0) }
{
    let mut out: [u32; 8] = [0; 8];
    for l in 0..8 {
        out[l] = above(counts[l] + enter[l]);
    }
    out
}

// The counts after a step.
pub(crate) fn counts_after(counts: [u32; 8], enter: [u32; 8], leave: [u32; 8]) -> [u32; 8]
    requires { (l : ℕ) → l < 8 → (get_or counts l 0 ≤ 95) × (get_or enter l 0 < 16) × (get_or leave l 0 ≤ get_or counts l 0 + get_or enter l 0) }
    ensures { result ≡ tab 8 (λ l. get_or counts l 0 + get_or enter l 0 - get_or leave l 0) }
{
    let mut out: [u32; 8] = [0; 8];
    for l in 0..8 {
        out[l] = counts[l] + enter[l] - leave[l];
    }
    out
}
