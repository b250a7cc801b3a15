// Bytes, decimal numbers and columns, written to a lent buffer from a place on; each answers the place behind what it wrote.
ghost use Rattle.std.specs.Prelude.{[], ◌∷◌, ◌+◌, ◌≤◌, ◌<◌, length};
ghost use Rattle.rows.specs.Columns.{Put, decimal, columns};

use codes::inner::tracks::copy;

pub fn put_byte(byte: u8, out: &mut [u8], at: usize) -> usize
    requires { at < length out.old }
    ensures { Put out.old at (byte ∷ []) out.new result }
{
    out[at] = byte;
    at + 1
}

pub fn put_text(text: &[u8], out: &mut [u8], at: usize) -> usize
    requires { at + length text.now ≤ length out.old }
    ensures { Put out.old at text.now out.new result }
{
    copy(text, &mut out[at..]);
    at + text.len()
}

// The digits of a number, made from the last one on.
pub fn put_decimal(n: u64, out: &mut [u8], at: usize) -> usize
    requires { at + 20 ≤ length out.old }
    ensures { Put out.old at (decimal n) out.new result }
{
    let mut text = [0u8; 20];
    let mut i: usize = 20;
    let mut rest = n;
    // By what is left of the number: no range to go over.
    while 9 < rest {
        i -= 1;
        text[i] = 48 + (rest % 10) as u8;
        rest /= 10;
    }
    i -= 1;
    text[i] = 48 + rest as u8;
    put_text(&text[i..], out, at)
}

// The columns behind a record's number.
pub fn put_columns(count: usize, ambiguous: u64, mark: u8, out: &mut [u8], at: usize) -> usize
    requires { at + 43 ≤ length out.old }
    ensures { Put out.old at (columns count ambiguous mark) out.new result }
{
    let a = put_decimal(count as u64, out, at);
    let b = put_byte(b'\t', out, a);
    let c = put_decimal(ambiguous, out, b);
    let d = put_byte(b'\t', out, c);
    put_byte(mark, out, d)
}
