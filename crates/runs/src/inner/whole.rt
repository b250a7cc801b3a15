// Bytes of new letters alone: four bases or eight flags to a byte, and the flags of up to 64 letters at a time.
ghost use Rattle.std.specs.Prelude.{map, ◌≡◌, ℕ, ◌+◌, ◌-◌, ◌*◌, ◌/◌, ◌%◌, ◌^◌, ◌≤◌, ◌<◌, length, get_or};
ghost use Rattle.codes.specs.Codes.{code, tab};
ghost use Rattle.codes.specs.Made.{Made};
ghost use Rattle.codes.specs.Words.{word, chars_of};
ghost use Rattle.runs.specs.Bytes.{letters_word};

use codes::letters::pack_char_lossy;
use fields::inner::loads::load64;
use fields::inner::writes::store64;

fn bases2(letters: &[u8], i: usize) -> u8
    requires { i + 2 ≤ length letters.now }
    ensures { result ≡ letters_word 2 2 letters.now i }
{
    pack_char_lossy(letters[i]) + pack_char_lossy(letters[i + 1]) * 4
}

pub(crate) fn bases4(letters: &[u8], i: usize) -> u8
    requires { i + 4 ≤ length letters.now }
    ensures { result ≡ letters_word 2 4 letters.now i }
{
    bases2(letters, i) + bases2(letters, i + 2) * 16
}

// 0 for one of the ten letters, else 1, with no branch. Without its case and bits 1 and 2 each of A, C and G is 0x41.
// T and U have bit 2 set and bit 1 clear: there bit 4 is set too, and bit 0 is free.
fn flag_of(x: u8) -> u8
    ensures { result ≡ code 1 x }
{
    let t = (x >> 2) & ((x >> 1) ^ 0xff) & 1;
    let f = ((x & 0xd9) | t) ^ 0x41 ^ (t << 4);
    if f == 0 { 0 } else { 1 }
}

// The flags of 64 letters from letter i on, a byte each.
fn spread(letters: &[u8], i: usize) -> [u8; 64]
    requires { i + 64 ≤ length letters.now }
    ensures { result ≡ tab 64 (λ k. code 1 (get_or letters.now (i + k) 0)) }
{
    let mut out: [u8; 64] = [0; 64];
    for (k, flag) in out.iter_mut().enumerate() {
        *flag = flag_of(letters[i + k]);
    }
    out
}

// The flags of the eight letters of x, a byte each: what `flag_of` does, at all eight at once, and nothing goes from byte to byte.
fn flags_in(x: u64) -> u64
    ensures { result ≡ word 8 (map (code 1) (chars_of 8 8 x)) }
{
    let t = ((x & 0x0404_0404_0404_0404) >> 2)
        & (((x & 0x0202_0202_0202_0202) >> 1) ^ 0x0101_0101_0101_0101);
    let f = ((x & 0xd9d9_d9d9_d9d9_d9d9) | t) ^ 0x4141_4141_4141_4141 ^ (t << 4);
    ((((f & 0x7f7f_7f7f_7f7f_7f7f) + 0x7f7f_7f7f_7f7f_7f7f) | f) & 0x8080_8080_8080_8080) >> 7
}

// The 8 by 8 bits of x turned: bit 8 i + k to bit 8 k + i.
fn turn(x: u64) -> u64
    ensures { (j : ℕ) → j < 64 → result / 2 ^ j % 2 ≡ x / 2 ^ (8 * (j % 8) + j / 8) % 2 }
{
    let y = (x & 0xaa55_aa55_aa55_aa55)
        | ((x & 0x00aa_00aa_00aa_00aa) << 7)
        | ((x >> 7) & 0x00aa_00aa_00aa_00aa);
    let z = (y & 0xcccc_3333_cccc_3333)
        | ((y & 0x0000_cccc_0000_cccc) << 14)
        | ((y >> 14) & 0x0000_cccc_0000_cccc);
    (z & 0xf0f0_f0f0_0f0f_0f0f)
        | ((z & 0x0000_0000_f0f0_f0f0) << 28)
        | ((z >> 28) & 0x0000_0000_f0f0_f0f0)
}

// The flags of n times eight letters from letter i on, n at most 8, as one word.
pub(crate) fn flags_of(letters: &[u8], i: usize, n: usize) -> u64
    requires { (n ≤ 8) × (i + 8 * n ≤ length letters.now) }
    ensures { result ≡ letters_word 1 (8 * n) letters.now i }
{
    let mut y: u64 = 0;
    for k in 0..n {
        y |= flags_in(load64(letters, i + 8 * k)) << k;
    }
    turn(y)
}

// The flags of 64 letters from letter i on, as one word.
fn flags64(letters: &[u8], i: usize) -> u64
    requires { i + 64 ≤ length letters.now }
    ensures { result ≡ letters_word 1 64 letters.now i }
{
    let bits = spread(letters, i);
    let mut y: u64 = 0;
    for k in 0..8 {
        y |= load64(&bits, 8 * k) << k;
    }
    turn(y)
}

// Bytes of bases from byte `from` up to byte `to`, the letters from letter `first` on.
pub(crate) fn bases_run(buffer: &mut [u8], from: usize, to: usize, letters: &[u8], first: usize)
    requires from_le_to { (from ≤ to) × (to ≤ length buffer.old) }
    requires from_in_bounds { first + (to - from) * 4 ≤ length letters.now }
    ensures { Made (λ j. letters_word 2 4 letters.now (first + (j - from) * 4)) from to buffer.old buffer.new }
{
    for (i, byte) in buffer[from..to].iter_mut().enumerate() {
        *byte = bases4(letters, first + i * 4);
    }
}

// Fewer than eight bytes of flags, out of one word.
fn flags_bytes(buffer: &mut [u8], from: usize, to: usize, letters: &[u8], first: usize)
    requires from_le_to { (from ≤ to) × (to < from + 8) × (to ≤ length buffer.old) }
    requires from_in_bounds { first + (to - from) * 8 ≤ length letters.now }
    ensures { Made (λ j. letters_word 1 8 letters.now (first + (j - from) * 8)) from to buffer.old buffer.new }
{
    let mut rest = flags_of(letters, first, to - from);
    for byte in buffer[from..to].iter_mut() {
        *byte = (rest % 0x100) as u8;
        rest >>= 8;
    }
}

// Bytes of flags, eight at a time: the last eight may overlap those before.
fn flags_words(buffer: &mut [u8], from: usize, to: usize, letters: &[u8], first: usize)
    requires from_bound { (from + 8 ≤ to) × (to ≤ length buffer.old) }
    requires from_in_bounds { first + (to - from) * 8 ≤ length letters.now }
    ensures { Made (λ j. letters_word 1 8 letters.now (first + (j - from) * 8)) from to buffer.old buffer.new }
{
    let last = to - 8;
    for j in (from..last).step_by(8) {
        store64(buffer, j, flags64(letters, first + (j - from) * 8));
    }
    store64(buffer, last, flags64(letters, first + (last - from) * 8));
}

// Bytes of flags from byte `from` up to byte `to`, the letters from letter `first` on.
pub(crate) fn flags_run(buffer: &mut [u8], from: usize, to: usize, letters: &[u8], first: usize)
    requires from_le_to { (from ≤ to) × (to ≤ length buffer.old) }
    requires from_in_bounds { first + (to - from) * 8 ≤ length letters.now }
    ensures { Made (λ j. letters_word 1 8 letters.now (first + (j - from) * 8)) from to buffer.old buffer.new }
{
    if to - from < 8 {
        flags_bytes(buffer, from, to, letters, first);
    } else {
        flags_words(buffer, from, to, letters, first);
    }
}
