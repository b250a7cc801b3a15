// What the reader does in each of its states, with bytes to read and room to write.
ghost use Rattle.std.specs.Prelude.{◌≡◌, ◌<◌, ◌≤◌, length};
ghost use Rattle.fasta.specs.Records.{closed, marked};
ghost use Rattle.fasta.specs.Steps.{stepped, refusing, begun, begun_held, in_header, in_line, in_line_held, at_line};
ghost use Rattle.fasta.specs.Buffers.{onto, line_track, held_track, track_after, other_after};

use crate::letters::add_letters;
use crate::lines::{content_length, line_end};
use crate::reader::{BASES, FLAGS, Reader, Record, Stepped};
use crate::report::{put_row, put_total};
use rows::inner::puts::put_text;
use std::num::wrapping_add_u64;

// Before any header.
pub(crate) fn begin(part: &[u8], out: &mut [u8]) -> Stepped
    requires part_nonzero { 0 < length part.now }
    requires in_bounds { 96 ≤ length out.old }
    ensures says { result ≡ stepped (begun part.now) }
    ensures out { out.new ≡ onto (begun part.now).written out.old }
{
    let first = part[0];
    if first == b'\n' {
        return Stepped {
            reader: Reader::Start,
            used: 1,
            wrote: 0,
        };
    }
    if first == b'\r' {
        return Stepped {
            reader: Reader::StartHeld,
            used: 1,
            wrote: 0,
        };
    }
    if first == b'>' {
        return Stepped {
            reader: Reader::Header(0),
            used: 1,
            wrote: 0,
        };
    }
    refuse(out)
}

// Before any header, after a CR.
pub(crate) fn begin_held(part: &[u8], out: &mut [u8]) -> Stepped
    requires part_nonzero { 0 < length part.now }
    requires in_bounds { 96 ≤ length out.old }
    ensures says { result ≡ stepped (begun_held part.now) }
    ensures out { out.new ≡ onto (begun_held part.now).written out.old }
{
    if part[0] != b'\n' {
        return refuse(out);
    }
    Stepped {
        reader: Reader::Start,
        used: 1,
        wrote: 0,
    }
}

// A letter before any header: the report is over.
fn refuse(out: &mut [u8]) -> Stepped
    requires { 96 ≤ length out.old }
    ensures says { result ≡ stepped refusing }
    ensures out { out.new ≡ onto refusing.written out.old }
{
    let wrote = put_text(b"refused\n", out, 0);
    Stepped {
        reader: Reader::Ended,
        used: 1,
        wrote,
    }
}

// In a header line.
pub(crate) fn in_header(number: u64, part: &[u8]) -> Stepped
    ensures { result ≡ stepped (in_header number part.now) }
{
    let end = line_end(part);
    if end < part.len() {
        return Stepped {
            reader: Reader::Fresh(Record { number, count: 0 }),
            used: end + 1,
            wrote: 0,
        };
    }
    Stepped {
        reader: Reader::Header(number),
        used: end,
        wrote: 0,
    }
}

// In a record, within a line.
pub(crate) fn in_line(
    kept: Record,
    part: &[u8],
    bases: &mut [u8; BASES],
    flags: &mut [u8; FLAGS],
) -> Stepped
    ensures says { result ≡ stepped (in_line kept part.now) }
    ensures bases { bases.new ≡ line_track 2 kept part.now bases.old }
    ensures flags { flags.new ≡ line_track 1 kept part.now flags.old }
{
    let end = line_end(part);
    let letters = content_length(&part[..end]);
    let longer = add_letters(kept, &part[..letters], bases, flags);
    if end < part.len() {
        return Stepped {
            reader: Reader::Fresh(longer),
            used: end + 1,
            wrote: 0,
        };
    }
    if letters < end {
        return Stepped {
            reader: Reader::WithinHeld(longer),
            used: end,
            wrote: 0,
        };
    }
    Stepped {
        reader: Reader::Within(longer),
        used: end,
        wrote: 0,
    }
}

// In a record, within a line, after a CR.
pub(crate) fn in_line_held(
    kept: Record,
    part: &[u8],
    bases: &mut [u8; BASES],
    flags: &mut [u8; FLAGS],
) -> Stepped
    requires { 0 < length part.now }
    ensures says { result ≡ stepped (in_line_held kept part.now) }
    ensures bases { bases.new ≡ held_track 2 kept part.now bases.old }
    ensures flags { flags.new ≡ held_track 1 kept part.now flags.old }
{
    if part[0] == b'\n' {
        return Stepped {
            reader: Reader::Fresh(kept),
            used: 1,
            wrote: 0,
        };
    }
    let longer = add_letters(kept, b"\r", bases, flags);
    in_line(longer, part, bases, flags)
}

// In a record, at the start of a line.
pub(crate) fn at_line(
    kept: Record,
    part: &[u8],
    bases: &mut [u8; BASES],
    flags: &mut [u8; FLAGS],
    other: &mut [u8; BASES],
    out: &mut [u8],
) -> Stepped
    requires part_nonzero { 0 < length part.now }
    requires in_bounds { 96 ≤ length out.old }
    ensures says { result ≡ stepped (at_line kept part.now bases.old flags.old) }
    ensures bases { bases.new ≡ track_after 2 (Reader.Fresh kept) part.now bases.old }
    ensures flags { flags.new ≡ track_after 1 (Reader.Fresh kept) part.now flags.old }
    ensures other { other.new ≡ other_after (Reader.Fresh kept) part.now bases.old other.old }
    ensures out { out.new ≡ onto (at_line kept part.now bases.old flags.old).written out.old }
{
    if part[0] == b'>' {
        let number = wrapping_add_u64(kept.number, 1);
        let wrote = put_row(number, kept, bases, flags, other, out);
        return Stepped {
            reader: Reader::Header(number),
            used: 1,
            wrote,
        };
    }
    in_line(kept, part, bases, flags)
}

// The last row and the total.
pub(crate) fn close(
    kept: Record,
    bases: &[u8; BASES],
    flags: &[u8; FLAGS],
    other: &mut [u8; BASES],
    out: &mut [u8],
) -> usize
    requires { 96 ≤ length out.old }
    ensures says { result ≡ length (closed kept bases.now flags.now) }
    ensures other { other.new ≡ marked kept bases.now other.old }
    ensures out { out.new ≡ onto (closed kept bases.now flags.now) out.old }
{
    let number = wrapping_add_u64(kept.number, 1);
    let at = put_row(number, kept, bases, flags, other, out);
    put_total(number, out, at)
}
