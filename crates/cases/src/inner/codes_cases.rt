// Letters and words.
use crate::inner::numbers::{chars, word};
use crate::inner::print;
use codes::units::Chars;
use codes::widths::{Bases, Flags};
use codes::{letters, words};
use std::io;
use std::io::Write;

pub fn run<W: Write>(
    to: &mut W,
    call: u64,
    line: &[u64; 512],
    text: &[u8],
    out: &mut [u8],
) -> io::Result<()> {
    match call {
        10 => letter(to, (line[1] % 256) as u8),
        11 => code(to, (line[1] % 256) as u8),
        20 => print::word(to, words::pack_kmer_lossy(text)),
        21 => print::word128(to, words::pack_kmer_u128_lossy(text)),
        _ => of_words(to, call, chars(line, 1), word(line, 2), word(line, 4), out),
    }
}

// A byte's strict and lossy code, its flag and its complement.
fn letter<W: Write>(to: &mut W, b: u8) -> io::Result<()> {
    print::word(to, letters::pack_char(b))?;
    print::byte(to, letters::pack_char_lossy(b))?;
    print::byte(to, letters::char_is_ambiguous(b))?;
    print::word(to, letters::complement_char(b))
}

// A code's letter and its complement.
fn code<W: Write>(to: &mut W, c: u8) -> io::Result<()> {
    print::word(to, letters::unpack_base(c))?;
    print::word(to, letters::complement_base(c))
}

// The calls on a word of k characters, or on the two words x and y as one.
fn of_words<W: Write>(
    to: &mut W,
    call: u64,
    k: Chars,
    x: u64,
    y: u64,
    out: &mut [u8],
) -> io::Result<()> {
    match call {
        22 => {
            print::outcome(to, words::unpack_kmer(x, k, out))?;
            print::bytes(to, out)
        }
        23 => {
            print::outcome(to, words::unpack_kmer_u128(x, y, k, out))?;
            print::bytes(to, out)
        }
        24 => print::word(to, words::rev_u64::<Bases>(x, k)),
        25 => print::word128(to, words::rev_u128::<Bases>(x, y, k)),
        26 => print::word(to, words::rev_u64::<Flags>(x, k)),
        27 => print::word128(to, words::rev_u128::<Flags>(x, y, k)),
        _ => Ok(())
    }
}
