// The record reader: a state by value, a start, a step and a finish.
ghost use Rattle.std.specs.Prelude.{◌≡◌, length};
ghost use Rattle.fasta.specs.Steps.{stepped, seen, next, started, last_lines};
ghost use Rattle.fasta.specs.Buffers.{onto, track_after, other_after, other_at_end};

use crate::report::put_total;
use crate::states::{at_line, begin, begin_held, close, in_header, in_line, in_line_held};
use rows::inner::puts::put_text;

// The bytes of a buffer for 16,384 bases, for 16,384 flags, and for what a call writes.
pub const BASES: usize = rows::inner::strands::BASES;

pub const FLAGS: usize = 2096;

pub const OUT: usize = 96;

// The open record: the records before it, and its letters (16,385 for any number above 16,384, as `at_most` says).
#[derive(Clone, Copy)]
pub struct Record {
    pub number: u64,
    pub count: usize,
}

// Where the bytes read so far end: before any header, in a header line after so many records, in a record at the start of
// a line or within one, or after the report: letters came before any header, or a feed has written the last lines. `Held` says that
// a CR is the last of these bytes, and is not yet counted: it is a letter only if a byte other than LF follows.
#[derive(Clone, Copy)]
pub enum Reader {
    Start,
    StartHeld,
    Header(u64),
    Fresh(Record),
    Within(Record),
    WithinHeld(Record),
    Ended,
}

// The reader after a step, the bytes of the part that it took, and those that it wrote.
#[derive(Clone, Copy)]
pub struct Stepped {
    pub reader: Reader,
    pub used: usize,
    pub wrote: usize,
}

// The reader before any byte; writes the heading. Nothing is written to a buffer of fewer than OUT bytes, here or below.
pub fn start(out: &mut [u8]) -> Stepped
    ensures says { result ≡ stepped (started out.old) }
    ensures out { out.new ≡ onto (started out.old).written out.old }
{
    if out.len() < OUT {
        return Stepped {
            reader: Reader::Start,
            used: 0,
            wrote: 0,
        };
    }
    let wrote = put_text(b"record\tbases\tambiguous\tstrand\n", out, 0);
    Stepped {
        reader: Reader::Start,
        used: 0,
        wrote,
    }
}

// Reads on in a part of the input: the rest of a line, or the `>` of a header; none of it where `out` is too short. The tracks of
// the open record stand in `bases` and `flags`; `other` is lent for the reverse complement.
pub fn step(
    reader: Reader,
    part: &[u8],
    bases: &mut [u8; BASES],
    flags: &mut [u8; FLAGS],
    other: &mut [u8; BASES],
    out: &mut [u8],
) -> Stepped
    ensures says { result ≡ stepped (next reader (seen part.now out.old) bases.old flags.old) }
    ensures bases { bases.new ≡ track_after 2 reader (seen part.now out.old) bases.old }
    ensures flags { flags.new ≡ track_after 1 reader (seen part.now out.old) flags.old }
    ensures other { other.new ≡ other_after reader (seen part.now out.old) bases.old other.old }
    ensures out { out.new
        ≡ onto (next reader (seen part.now out.old) bases.old flags.old).written out.old }
{
    if part.len() == 0 {
        return Stepped {
            reader,
            used: 0,
            wrote: 0,
        };
    }
    if out.len() < OUT {
        return Stepped {
            reader,
            used: 0,
            wrote: 0,
        };
    }
    match reader {
        Reader::Start => begin(part, out),
        Reader::StartHeld => begin_held(part, out),
        Reader::Header(number) => in_header(number, part),
        Reader::Fresh(kept) => at_line(kept, part, bases, flags, other, out),
        Reader::Within(kept) => in_line(kept, part, bases, flags),
        Reader::WithinHeld(kept) => in_line_held(kept, part, bases, flags),
        Reader::Ended => Stepped {
            reader: Reader::Ended,
            used: part.len(),
            wrote: 0,
        },
    }
}

// The end of the input: writes the last row and the total, and answers how many bytes. A CR that is held was part of the last line's end.
pub fn finish(
    reader: Reader,
    bases: &[u8; BASES],
    flags: &[u8; FLAGS],
    other: &mut [u8; BASES],
    out: &mut [u8],
) -> usize
    ensures says { result ≡ length (last_lines reader bases.now flags.now out.old) }
    ensures other { other.new ≡ other_at_end reader bases.now other.old out.old }
    ensures out { out.new ≡ onto (last_lines reader bases.now flags.now out.old) out.old }
{
    if out.len() < OUT {
        return 0;
    }
    match reader {
        Reader::Start | Reader::StartHeld => put_total(0, out, 0),
        Reader::Header(number) => close(Record { number, count: 0 }, bases, flags, other, out),
        Reader::Fresh(kept) | Reader::Within(kept) | Reader::WithinHeld(kept) => {
            close(kept, bases, flags, other, out)
        }
        Reader::Ended => 0,
    }
}
