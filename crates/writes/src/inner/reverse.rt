// A view reversed, bases complemented, into a lent buffer: a word of output is the flip of a word from the view's end, and what is left
// below a word goes by a table of the flips of bytes.
ghost use Rattle.std.specs.Prelude.{Ok, ◌≡◌, ◌+◌, ◌-◌, ◌*◌, ◌/◌, ◌%◌, ◌^◌, ◌≤◌, ◌<◌, length};
ghost use Rattle.codes.specs.Codes.{up, trailing};
ghost use Rattle.codes.specs.Made.{Made};
ghost use Rattle.codes.specs.Refusals.{first, view_tests};
ghost use Rattle.codes.specs.Words.{word};
ghost use Rattle.writes.specs.Flips.{flipped_byte, looked_up};
ghost use Rattle.writes.specs.Writes.{flipped_over};

use crate::inner::tables::flips_of;
use codes::inner::tracks::zero_run;
use codes::units::TRAILING;
use codes::widths::Width;
use fields::inner::loads::{peek, word_at};
use fields::inner::writes::store64;

// The whole words of the `bits` bits from bit p on, reversed.
fn flip_words<W: Width>(bytes: &[u8], p: usize, bits: usize, out: &mut [u8])
    requires bits_value { W.BITS * (bits / W.BITS) ≡ bits }
    requires bits_bound { (p + bits < 2 ^ 32) × (p + bits + 384 ≤ 8 * length bytes.now) × (bits ≤ 8 * length out.old) }
    ensures { Made (flipped_byte W.BITS (word 8 bytes.now / 2 ^ p) bits) 0 (bits / 64 * 8) out.old out.new }
{
    // A word begins at bit s of a byte, and s is the same for all of them.
    let s = (p + bits) % 8;
    let end = (p + bits) / 8;
    for i in 0..bits / 64 {
        let from = end - 8 * (i + 1);
        store64(out, 8 * i, W::flip_word(word_at(bytes, from, s)));
    }
}

// The eight bits from bit p on.
fn byte_at(bytes: &[u8], p: usize) -> u8
    requires { p / 8 + 8 ≤ length bytes.now }
    ensures { result ≡ word 8 bytes.now / 2 ^ p % 2 ^ 8 }
{
    (peek(bytes, p) % 0x100) as u8
}

// The next byte of output, where `left` bits from bit p on are still to be reversed: one load, one look into the table.
fn flip_byte(table: &[u8; 256], bytes: &[u8], p: usize, left: usize) -> u8
    requires { (0 < left) × (p + left < 2 ^ 32) × (p + left + 384 ≤ 8 * length bytes.now) }
    ensures { result ≡ looked_up table.now (word 8 bytes.now / 2 ^ p) left }
{
    if left < 8 {
        let b = byte_at(bytes, p);
        return table[b as usize] >> (8 - left);
    }
    let b = byte_at(bytes, p + (left - 8));
    table[b as usize]
}

// The bytes of output from byte `from` on.
fn flip_bytes(table: &[u8; 256], bytes: &[u8], p: usize, bits: usize, from: usize, out: &mut [u8])
    requires bits_bound { (p + bits < 2 ^ 32) × (p + bits + 384 ≤ 8 * length bytes.now) × (bits ≤ 8 * length out.old) }
    requires from_bound { 8 * from ≤ bits }
    ensures { Made (λ at. looked_up table.now (word 8 bytes.now / 2 ^ p) (bits - 8 * at))
        from ((bits + 7) / 8) out.old out.new }
{
    for at in from..(bits + 7) / 8 {
        out[at] = flip_byte(table, bytes, p, bits - 8 * at);
    }
}

// What is left below a whole word, in bytes. The compiled code makes a table anew wherever it is asked for: so once for all bytes, and only
// where there are any.
fn flip_rest<W: Width>(bytes: &[u8], p: usize, bits: usize, out: &mut [u8])
    requires bits_value { W.BITS * (bits / W.BITS) ≡ bits }
    requires bits_bound { (p + bits < 2 ^ 32) × (p + bits + 384 ≤ 8 * length bytes.now) × (bits ≤ 8 * length out.old) }
    ensures { Made (flipped_byte W.BITS (word 8 bytes.now / 2 ^ p) bits) (bits / 64 * 8) ((bits + 7) / 8)
        out.old out.new }
{
    if bits % 64 == 0 {
        return;
    }
    let from = bits / 64 * 8;
    let table = flips_of::<W>();
    flip_bytes(&table, bytes, p, bits, from, out);
}

// The reversed view, and 48 zeros.
pub(crate) fn write_flipped<W: Width>(
    bytes: &[u8],
    o: usize,
    len: usize,
    used: usize,
    out: &mut [u8],
)
    requires len_value { first (view_tests W.BITS (length bytes.now) o len) ≡ Ok tt }
    requires used_value { (used ≡ up W.BITS len) × (used + trailing ≤ length out.old) }
    ensures { out.new ≡ flipped_over W.BITS bytes.now o len out.old }
{
    let w = W::BITS;
    let p = w * o;
    let bits = w * len;
    flip_words::<W>(bytes, p, bits, out);
    flip_rest::<W>(bytes, p, bits, out);
    zero_run(out, used, used + TRAILING);
}
