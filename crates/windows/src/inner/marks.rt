// Marks: for each lane the step until which its windows stay set, k past its last set flag. No count is kept.
ghost use Rattle.std.specs.Prelude.{◌≡◌, ◌+◌, ◌-◌, ◌*◌, ◌/◌, ◌%◌, ◌^◌, ◌≤◌, ◌<◌, eqb, length, get_or};
ghost use Rattle.codes.specs.Codes.{pick, tab};
ghost use Rattle.codes.specs.Made.{Made};
ghost use Rattle.windows.specs.Marks.{TurnsMarks, shown, marked};

// The new mark where the low bit of x is set, else the old one.
fn later(x: u64, stop: usize, old: usize) -> usize
    ensures { result ≡ pick (eqb (x % 2) 1) stop old }
{
    if x % 2 == 1 { stop } else { old }
}

// The marks after one step, whose flags stand at bit t of eight words.
fn mark(words: [u64; 8], t: usize, stop: usize, marks: [usize; 8]) -> [usize; 8]
    requires { t < 64 }
    ensures { result ≡ tab 8 (λ l. pick (eqb (get_or words l 0 / 2 ^ t % 2) 1) stop (get_or marks l 0)) }
{
    let mut out: [usize; 8] = [0; 8];
    for l in 0..8 {
        out[l] = later(words[l] >> t, stop, marks[l]);
    }
    out
}

// All 32 bits set where step j is below the mark, else 0.
fn show(j: usize, mark: usize) -> u32
    ensures { result ≡ shown j mark }
{
    if j < mark { 0xffff_ffff } else { 0 }
}

// Writes what eight marks show at step j from entry e on.
fn write_marks(marks: [usize; 8], j: usize, out: &mut [u32], e: usize)
    requires { e + 8 ≤ length out.old }
    ensures { Made (λ q. shown j (get_or marks (q - e) 0)) e (e + 8) out.old out.new }
{
    for l in 0..8 {
        out[e + l] = show(j, marks[l]);
    }
}

// The same at its place, from step `skip` on.
fn write_from(marks: [usize; 8], j: usize, skip: usize, out: &mut [u32])
    requires { (j < 2 ^ 33) × (8 * (j + 1 - skip) ≤ length out.old) }
    ensures { Made (marked j marks) (8 * (j - skip)) (8 * (j + 1 - skip)) out.old out.new }
{
    if skip <= j {
        write_marks(marks, j, out, 8 * (j - skip));
    }
}

// Marks and writes `count` steps from step j on, whose flags are the low bits of eight words.
pub(crate) fn write_windows(
    words: [u64; 8],
    count: usize,
    j: usize,
    k: usize,
    skip: usize,
    marks: [usize; 8],
    out: &mut [u32],
) -> [usize; 8]
    requires count_bound { (count ≤ 64) × (j ≤ 2 ^ 32) × (k ≤ 96) }
    requires skip_in_bounds { 8 * (j + count - skip) ≤ length out.old }
    ensures { TurnsMarks k skip j count words marks result out.old out.new }
{
    let mut now = marks;
    for t in 0..count {
        let next = mark(words, t, j + t + k, now);
        write_from(next, j + t, skip, out);
        now = next;
    }
    now
}
