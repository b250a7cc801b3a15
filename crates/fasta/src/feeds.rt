// A part of the input fed to the reader, step by step, and what the steps write collected in a text: a lent buffer and how much of it is in
// use, as there is no heap.
ghost use Rattle.std.specs.Prelude.{◌≡◌, true, drop};
ghost use Rattle.fasta.specs.Steps.{too_short};
ghost use Rattle.fasta.specs.Buffers.{other_at_end};
ghost use Rattle.fasta.specs.Feeds.{Leaves, feeding, fed, then_after, at_end, behind};

use crate::reader::{BASES, FLAGS, OUT, Reader, finish, step};

// What is left to do: read on, as the part is used up; write the text out and feed the rest of the part, as fewer than OUT bytes are
// left in the text; or write it out and stop, as the report is complete.
#[derive(Clone, Copy)]
pub enum Then {
    Read,
    Write,
    Stop,
}

// The reader after a feed, the bytes of the part that it took, the bytes of the text in use, and what is left to do.
#[derive(Clone, Copy)]
pub struct Fed {
    pub reader: Reader,
    pub used: usize,
    pub filled: usize,
    pub then: Then,
}

// Reads on in a part of the input, and puts what the steps write behind the first `filled` bytes of the text. The other buffers are
// lent as to `step`.
pub fn feed(
    reader: Reader,
    part: &[u8],
    bases: &mut [u8; BASES],
    flags: &mut [u8; FLAGS],
    other: &mut [u8; BASES],
    text: &mut [u8],
    filled: usize,
) -> Fed
    ensures { Leaves part.now text.old filled
        (feeding reader part.now bases.old flags.old other.old (drop filled text.old))
        result bases.new flags.new other.new text.new }
{
    let mut state = reader;
    let mut used: usize = 0;
    let mut end = filled;
    // By what each step takes of the part: no fixed step.
    while used < part.len() {
        if is_full(text, end) {
            break;
        }
        let stepped = step(state, &part[used..], bases, flags, other, &mut text[end..]);
        state = stepped.reader;
        used += stepped.used;
        end += stepped.wrote;
    }
    Fed {
        reader: state,
        used,
        filled: end,
        then: then_after(state, used < part.len()),
    }
}

// The end of the input: puts the last lines behind the first `filled` bytes of the text, or answers `Write` where they have no room.
pub fn feed_end(
    reader: Reader,
    bases: &[u8; BASES],
    flags: &[u8; FLAGS],
    other: &mut [u8; BASES],
    text: &mut [u8],
    filled: usize,
) -> Fed
    ensures says { result ≡ fed filled true (at_end reader bases.now flags.now (drop filled text.old)) }
    ensures other { other.new ≡ other_at_end reader bases.now other.old (drop filled text.old) }
    ensures text { text.new ≡ behind filled (at_end reader bases.now flags.now (drop filled text.old)).written
        text.old }
{
    if is_full(text, filled) {
        return Fed {
            reader,
            used: 0,
            filled,
            then: then_after(reader, true),
        };
    }
    let wrote = finish(reader, bases, flags, other, &mut text[filled..]);
    Fed {
        reader: Reader::Ended,
        used: 0,
        filled: filled + wrote,
        then: Then::Stop,
    }
}

// Fewer than OUT bytes are left behind the first `filled`.
fn is_full(text: &[u8], filled: usize) -> bool
    ensures { result ≡ too_short (drop filled text.now) }
{
    if text.len() < filled {
        return true;
    }
    text.len() - filled < OUT
}

// After letters that no header came before, and after the last lines, there is nothing to read or to write any more.
fn then_after(reader: Reader, more: bool) -> Then
    ensures { result ≡ then_after reader more }
{
    if let Reader::Ended = reader {
        return Then::Stop;
    }
    if more { Then::Write } else { Then::Read }
}
