// Turns: each lane's next 64 bits in one word, and the characters of eight such words side by side.
ghost use Rattle.std.specs.Prelude.{Ok, ◌≡◌, ℕ, ◌+◌, ◌-◌, ◌*◌, ◌/◌, ◌%◌, ◌^◌, ◌≤◌, ◌<◌, length, get_or};
ghost use Rattle.codes.specs.Codes.{chars};
ghost use Rattle.codes.specs.Made.{Made};
ghost use Rattle.codes.specs.Refusals.{first, view_tests};
ghost use Rattle.lanes.specs.Turns.{Holds, turned};

use codes::inner::bits::smaller;
use codes::inner::counts::over_width;
use codes::widths::Width;
use fields::inner::loads::bits_at;

// The characters from character i of the view on, as many as 64 bits hold; zeros from the end on.
fn lane_word<W: Width>(turn: usize, bytes: &[u8], offset: usize, len: usize, i: usize) -> u64
    requires len_value { first (view_tests W.BITS (length bytes.now) offset len) ≡ Ok tt }
    requires turn_value { turn ≡ 64 / W.BITS }
    ensures { Holds W.BITS (chars W.BITS bytes.now offset len) i result }
{
    let w = W::BITS;
    if len <= i {
        return 0;
    }
    let left = len - i;
    if left < turn {
        return bits_at(bytes, w * (offset + i), w * left);
    }
    bits_at(bytes, w * (offset + i), 64)
}

// The words of eight lanes, n apart, from character i of each on.
pub fn lane_words<W: Width>(
    turn: usize,
    bytes: &[u8],
    offset: usize,
    len: usize,
    n: usize,
    i: usize,
) -> [u64; 8]
    requires len_value { first (view_tests W.BITS (length bytes.now) offset len) ≡ Ok tt }
    requires turn_value { (turn ≡ 64 / W.BITS) × (n ≤ 2 ^ 29) × (i ≤ 2 ^ 33) }
    ensures { (l : ℕ) → l < 8 → Holds W.BITS (chars W.BITS bytes.now offset len) (l * n + i) (get_or result l 0) }
{
    let mut out: [u64; 8] = [0; 8];
    for (l, word) in out.iter_mut().enumerate() {
        *word = lane_word::<W>(turn, bytes, offset, len, l * n + i);
    }
    out
}

// The low 32 bits of x.
fn low_half(x: u64) -> u32
    ensures { result ≡ x % 2 ^ 32 }
{
    (x % 0x1_0000_0000) as u32
}

// The 32 bits from bit s on of each of eight words: a step then shifts eight numbers of 32 bits, as many as it writes.
fn halves(words: [u64; 8], s: usize) -> [u32; 8]
    requires { s < 64 }
    ensures { (l : ℕ) → l < 8 → get_or result l 0 ≡ get_or words l 0 / 2 ^ s % 2 ^ 32 }
{
    let mut out: [u32; 8] = [0; 8];
    for (l, half) in out.iter_mut().enumerate() {
        *half = low_half(words[l] >> s);
    }
    out
}

// Writes the characters at bit s of eight halves from entry e on.
fn write_step<W: Width>(part: [u32; 8], s: usize, out: &mut [u32], e: usize)
    requires { (s < 32) × (e + 8 ≤ length out.old) }
    ensures { Made (λ q. get_or part (q - e) 0 / 2 ^ s % 2 ^ W.BITS) e (e + 8) out.old out.new }
{
    let w = W::BITS;
    for l in 0..8 {
        out[e + l] = (part[l] >> s) % (1 << w);
    }
}

// Writes the first `count` characters of eight halves from entry e on, a step at a time.
fn write_half<W: Width>(part: [u32; 8], count: usize, out: &mut [u32], e: usize)
    requires { (W.BITS * count ≤ 32) × (e + 8 * count ≤ length out.old) }
    ensures { Made (turned W.BITS part e) e (e + 8 * count) out.old out.new }
{
    let w = W::BITS;
    for t in 0..count {
        write_step::<W>(part, w * t, out, e + 8 * t);
    }
}

// Writes the first `count` characters of eight words from entry e on.
pub(crate) fn write_turn<W: Width>(words: [u64; 8], count: usize, out: &mut [u32], e: usize)
    requires { (W.BITS * count ≤ 64) × (e + 8 * count ≤ length out.old) }
    ensures { Made (turned W.BITS words e) e (e + 8 * count) out.old out.new }
{
    let first = smaller(count, over_width::<W>(32));
    write_half::<W>(halves(words, 0), first, out, e);
    write_half::<W>(halves(words, 32), count - first, out, e + 8 * first);
}
