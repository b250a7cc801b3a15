// One view of a buffer: characters, words, letters and reverse, at width 2 and, for any other number, at width 1.
use crate::inner::numbers::chars;
use crate::inner::print;
use codes::units::Chars;
use codes::widths::{Bases, Flags, Width};
use fields::inner::parts::get_at;
use std::io;
use std::io::Write;
use views::calls;
use writes::calls::{to_revcomp, unpack};

pub fn run<W: Write>(
    to: &mut W,
    call: u64,
    line: &[u64; 512],
    bytes: &[u8],
    out: &mut [u8],
) -> io::Result<()> {
    match call {
        38 => reverse(to, line, bytes, out),
        39 => letters(to, line, bytes, out),
        _ => read(to, call, line, bytes),
    }
}

fn reverse<W: Write>(
    to: &mut W,
    line: &[u64; 512],
    bytes: &[u8],
    out: &mut [u8],
) -> io::Result<()> {
    let o = chars(line, 2);
    let n = chars(line, 3);
    let outcome = if line[1] == 2 {
        to_revcomp::<Bases>(bytes, o, n, out)
    } else {
        to_revcomp::<Flags>(bytes, o, n, out)
    };
    print::outcome(to, outcome)?;
    print::bytes(to, out)
}

fn letters<W: Write>(
    to: &mut W,
    line: &[u64; 512],
    bytes: &[u8],
    out: &mut [u8],
) -> io::Result<()> {
    let outcome = unpack(bytes, chars(line, 1), chars(line, 2), out);
    print::outcome(to, outcome)?;
    print::bytes(to, out)
}

fn read<W: Write>(to: &mut W, call: u64, line: &[u64; 512], bytes: &[u8]) -> io::Result<()> {
    let o = chars(line, 2);
    let n = chars(line, 3);
    if line[1] == 2 {
        at::<Bases, _>(to, call, line, bytes, o, n)
    } else {
        at::<Flags, _>(to, call, line, bytes, o, n)
    }
}

fn at<W: Width, T: Write>(
    to: &mut T,
    call: u64,
    line: &[u64; 512],
    bytes: &[u8],
    o: Chars,
    n: Chars,
) -> io::Result<()> {
    match call {
        31 => print::word(to, get_at::<W>(bytes, o, n, chars(line, 4))),
        32 => print::word(
            to,
            calls::get_sliced::<W>(bytes, o, n, chars(line, 4), chars(line, 5), chars(line, 6)),
        ),
        34 => print::word(to, calls::as_u64::<W>(bytes, o, n)),
        35 => print::word128(to, calls::as_u128::<W>(bytes, o, n)),
        36 => print::word(to, calls::revcomp_as_u64::<W>(bytes, o, n)),
        37 => print::word128(to, calls::revcomp_as_u128::<W>(bytes, o, n)),
        _ => Ok(()),
    }
}
