// Rows of the report, written to a lent buffer from a place on; each answers the place behind what it wrote.
ghost use Rattle.std.specs.Prelude.{◌≡◌, ◌+◌, ◌≤◌, length};
ghost use Rattle.rows.specs.Columns.{Put};
ghost use Rattle.fasta.specs.Report.{body, row_of, total_of};
ghost use Rattle.fasta.specs.Records.{ambiguous_in, strand_in, marked};

use crate::reader::{BASES, FLAGS, Record};
use fields::inner::flags::set_flags;
use rows::inner::puts::{put_byte, put_columns, put_decimal, put_text};
use rows::inner::strands::strand;

// What stands behind a record's number: its columns, or `too-long`.
fn put_body(
    kept: Record,
    bases: &[u8; BASES],
    flags: &[u8; FLAGS],
    other: &mut [u8; BASES],
    out: &mut [u8],
    at: usize,
) -> usize
    requires { at + 43 ≤ length out.old }
    ensures out { Put out.old at
        (body kept.count (ambiguous_in kept flags.now) (strand_in kept bases.now)) out.new result }
    ensures other { other.new ≡ marked kept bases.now other.old }
{
    let count = kept.count;
    if 16384 < count {
        return put_text(b"too-long", out, at);
    }
    let ambiguous = set_flags(flags, 0, count);
    let mark = strand(bases, count, other);
    put_columns(count, ambiguous, mark, out, at)
}

// A record's row, at the front of `out`.
pub(crate) fn put_row(
    number: u64,
    kept: Record,
    bases: &[u8; BASES],
    flags: &[u8; FLAGS],
    other: &mut [u8; BASES],
    out: &mut [u8],
) -> usize
    requires { 65 ≤ length out.old }
    ensures out { Put out.old 0
        (row_of number kept.count (ambiguous_in kept flags.now) (strand_in kept bases.now)) out.new result }
    ensures other { other.new ≡ marked kept bases.now other.old }
{
    let a = put_decimal(number, out, 0);
    let b = put_byte(b'\t', out, a);
    let c = put_body(kept, bases, flags, other, out, b);
    put_byte(b'\n', out, c)
}

// The last line.
pub(crate) fn put_total(number: u64, out: &mut [u8], at: usize) -> usize
    requires { at + 27 ≤ length out.old }
    ensures { Put out.old at (total_of number) out.new result }
{
    let a = put_text(b"total\t", out, at);
    let b = put_decimal(number, out, a);
    put_byte(b'\n', out, b)
}
