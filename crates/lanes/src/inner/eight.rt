// Single steps: the eight lanes of a step, each character read from the view.
ghost use Rattle.std.specs.Prelude.{Ok, ◌≡◌, ◌^◌, ◌≤◌, ◌<◌, length};
ghost use Rattle.codes.specs.Codes.{chars};
ghost use Rattle.codes.specs.Refusals.{first, view_tests};
ghost use Rattle.lanes.specs.Lanes.{lane_char, lanes};

use codes::widths::Width;
use fields::inner::loads::bits_at;

fn narrow(x: u64) -> u32
    requires { x < 16 }
    ensures { result ≡ x }
{
    x as u32
}

// The character that step j gives lane l at delay d, where lanes are n apart.
fn lane_char<W: Width>(
    bytes: &[u8],
    offset: usize,
    len: usize,
    n: usize,
    d: usize,
    j: usize,
    l: usize,
) -> u32
    requires len_value { first (view_tests W.BITS (length bytes.now) offset len) ≡ Ok tt }
    requires n_bound { (n ≤ 2 ^ 29) × (j ≤ 2 ^ 33) × (l < 8) }
    ensures { result ≡ lane_char (chars W.BITS bytes.now offset len) n d j l }
{
    let w = W::BITS;
    if j < d {
        return 0;
    }
    let i = l * n + (j - d);
    if len <= i {
        return 0;
    }
    narrow(bits_at(bytes, w * (offset + i), w))
}

// The eight lanes of step j at delay d.
pub fn lanes_at<W: Width>(
    bytes: &[u8],
    offset: usize,
    len: usize,
    n: usize,
    d: usize,
    j: usize,
) -> [u32; 8]
    requires len_value { first (view_tests W.BITS (length bytes.now) offset len) ≡ Ok tt }
    requires n_bound { (n ≤ 2 ^ 29) × (j ≤ 2 ^ 33) }
    ensures { result ≡ lanes (chars W.BITS bytes.now offset len) n d j }
{
    let mut out: [u32; 8] = [0; 8];
    for (l, lane) in out.iter_mut().enumerate() {
        *lane = lane_char::<W>(bytes, offset, len, n, d, j, l);
    }
    out
}
