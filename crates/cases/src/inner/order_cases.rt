// Two views, of the first and the second buffer: comparing, finding and choosing, at width 2 and, for any other number, at width 1.
use crate::inner::numbers::chars;
use crate::inner::print;
use codes::units::Chars;
use codes::widths::{Bases, Flags, Width};
use order::calls;
use std::io;
use std::io::Write;

pub fn run<'a, W: Write>(
    to: &mut W,
    call: u64,
    line: &[u64; 512],
    a: &'a [u8],
    b: &'a [u8],
) -> io::Result<()> {
    let ao = chars(line, 2);
    let al = chars(line, 3);
    let bo = chars(line, 4);
    let bl = chars(line, 5);
    if line[1] == 2 {
        at::<Bases, _>(to, call, a, ao, al, b, bo, bl)
    } else {
        at::<Flags, _>(to, call, a, ao, al, b, bo, bl)
    }
}

fn at<'a, W: Width, T: Write>(
    to: &mut T,
    call: u64,
    a: &'a [u8],
    ao: Chars,
    al: Chars,
    b: &'a [u8],
    bo: Chars,
    bl: Chars,
) -> io::Result<()> {
    match call {
        40 => print::compared(to, calls::compare::<W>(a, ao, al, b, bo, bl)),
        43 => print::found(to, calls::find::<W>(b, bo, bl, a, ao, al)),
        44 => {
            print::least(to, calls::least_numbers::<W>(a, ao, al, b, bo, bl))?;
            print::bytes(to, calls::least::<W>(a, ao, al, b, bo, bl))
        }
        _ => Ok(())
    }
}
