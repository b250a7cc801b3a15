// The capital letters of a view's bases: whole bytes four letters at a time, and the bases before and behind them one at a time.
ghost use Rattle.std.specs.Prelude.{◌≡◌, ◌+◌, ◌-◌, ◌*◌, ◌^◌, ◌≤◌, length};
ghost use Rattle.codes.specs.Made.{Made};
ghost use Rattle.writes.specs.Writes.{letter_at};

use codes::inner::packing::low_letter;
use codes::inner::tracks::digit;
use codes::widths::Bases;

// Letters `from` up to `to`.
fn write_some(bytes: &[u8], o: usize, from: usize, to: usize, out: &mut [u8])
    requires { (from ≤ to) × (to ≤ length out.old) × (o + to ≤ length bytes.now * 4) × (length bytes.now ≤ 2 ^ 28) }
    ensures { Made (letter_at bytes.now o) from to out.old out.new }
{
    for i in from..to {
        let p = o + i;
        out[i] = low_letter(digit::<Bases>(bytes[p / 4], p % 4));
    }
}

// The letters of bytes `at` up to `stop`.
fn write_whole(bytes: &[u8], o: usize, at: usize, stop: usize, out: &mut [u8])
    requires { (at ≤ stop) × (o ≤ at * 4) × (stop ≤ length bytes.now) × (stop * 4 ≤ o + length out.old) × (length bytes.now ≤ 2 ^ 28) }
    ensures { Made (letter_at bytes.now o) (at * 4 - o) (stop * 4 - o) out.old out.new }
{
    for b in at..stop {
        let x = bytes[b];
        let i = b * 4 - o;
        out[i] = low_letter(x);
        out[i + 1] = low_letter(x / 4);
        out[i + 2] = low_letter(x / 16);
        out[i + 3] = low_letter(x / 64);
    }
}

// The letters of n bases from base o on.
pub(crate) fn write_letters(bytes: &[u8], o: usize, n: usize, out: &mut [u8])
    requires { (n ≤ length out.old) × (o + n ≤ length bytes.now * 4) × (length bytes.now ≤ 2 ^ 28) }
    ensures { Made (letter_at bytes.now o) 0 n out.old out.new }
{
    if n < 8 {
        write_some(bytes, o, 0, n, out);
    } else {
        let at = (o + 3) / 4;
        let stop = (o + n) / 4;
        write_some(bytes, o, 0, at * 4 - o, out);
        write_whole(bytes, o, at, stop, out);
        write_some(bytes, o, stop * 4 - o, n, out);
    }
}
