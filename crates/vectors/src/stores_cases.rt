// A store in the third buffer, with the first buffer's letters or view, at width 2 and, for any other number, at width 1.
use cases::inner::numbers::chars;
use cases::inner::print;
use codes::units::Chars;
use codes::widths::{Bases, Flags, Width};
use std::io;
use std::io::Write;
use stores::calls;

pub(crate) fn run<W: Write>(
    to: &mut W,
    call: u64,
    line: &[u64; 512],
    text: &[u8],
    buffer: &mut [u8],
) -> io::Result<()> {
    let len = chars(line, 2);
    let x = chars(line, 3);
    let y = chars(line, 4);
    if line[1] == 2 {
        at::<Bases, _>(to, call, text, buffer, len, x, y)?;
    } else {
        at::<Flags, _>(to, call, text, buffer, len, x, y)?;
    }
    print::bytes(to, buffer)
}

fn at<W: Width, T: Write>(
    to: &mut T,
    call: u64,
    text: &[u8],
    buffer: &mut [u8],
    len: Chars,
    x: Chars,
    y: Chars,
) -> io::Result<()> {
    match call {
        50 => print::kept(to, calls::clear::<W>(buffer)),
        51 => print::pushed(to, calls::push_ascii::<W>(buffer, len, text)),
        52 => print::pushed(to, calls::push_seq::<W>(buffer, len, text, x, y)),
        53 => print::kept(to, calls::overwrite::<W>(buffer, len, x, text)),
        54 => print::kept(to, calls::cut::<W>(buffer, len, x)),
        _ => Ok(()),
    }
}
