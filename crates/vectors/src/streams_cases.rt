// Lane streams over a view of the first buffer, at width 2 and, for any other number, at width 1; flag windows.
use cases::inner::numbers::{chars, number};
use cases::inner::print;
use codes::refusals::Refusal;
use codes::widths::{Bases, Flags};
use std::io;
use std::io::Write;
use streams::answers::Filled;
use streams::calls;

pub(crate) fn run<W: Write>(
    to: &mut W,
    call: u64,
    line: &[u64; 512],
    bytes: &[u8],
) -> io::Result<()> {
    match call {
        60 => plain(to, line, bytes),
        61 => delayed(to, line, bytes),
        62 => delayed_2(to, line, bytes),
        63 => windows(to, line, bytes),
        _ => Ok(())
    }
}

// The entries that a case shows: those of at most 64 steps.
fn written(answer: Result<Filled, Refusal>) -> usize {
    match answer {
        Ok(filled) => {
            if filled.steps < 64 {
                8 * filled.steps
            } else {
                512
            }
        }
        Err(_) => 0,
    }
}

fn plain<W: Write>(to: &mut W, line: &[u64; 512], bytes: &[u8]) -> io::Result<()> {
    let mut out = [0u32; 512];
    let filled = fill(line, bytes, &mut out);
    print::filled(to, filled)?;
    print::entries(to, &out, written(filled))
}

fn fill(line: &[u64; 512], bytes: &[u8], out: &mut [u32; 512]) -> Result<Filled, Refusal> {
    let o = chars(line, 2);
    let n = chars(line, 3);
    let c = chars(line, 4);
    let f = number(line, 5);
    if line[1] == 2 {
        calls::fill::<Bases>(bytes, o, n, c, f, out)
    } else {
        calls::fill::<Flags>(bytes, o, n, c, f, out)
    }
}

fn delayed<W: Write>(to: &mut W, line: &[u64; 512], bytes: &[u8]) -> io::Result<()> {
    let mut out = [0u32; 512];
    let mut late = [0u32; 512];
    let filled = fill_delayed(line, bytes, &mut out, &mut late);
    let n = written(filled);
    print::filled(to, filled)?;
    print::entries(to, &out, n)?;
    print::entries(to, &late, n)
}

fn fill_delayed(
    line: &[u64; 512],
    bytes: &[u8],
    out: &mut [u32; 512],
    late: &mut [u32; 512],
) -> Result<Filled, Refusal> {
    let o = chars(line, 2);
    let n = chars(line, 3);
    let c = chars(line, 4);
    let f = number(line, 5);
    let d = chars(line, 6);
    if line[1] == 2 {
        calls::fill_delayed::<Bases>(bytes, o, n, c, f, d, out, late)
    } else {
        calls::fill_delayed::<Flags>(bytes, o, n, c, f, d, out, late)
    }
}

fn delayed_2<W: Write>(to: &mut W, line: &[u64; 512], bytes: &[u8]) -> io::Result<()> {
    let mut out = [0u32; 512];
    let mut late = [0u32; 512];
    let mut later = [0u32; 512];
    let filled = fill_delayed_2(line, bytes, &mut out, &mut late, &mut later);
    let n = written(filled);
    print::filled(to, filled)?;
    print::entries(to, &out, n)?;
    print::entries(to, &late, n)?;
    print::entries(to, &later, n)
}

fn fill_delayed_2(
    line: &[u64; 512],
    bytes: &[u8],
    out: &mut [u32; 512],
    late: &mut [u32; 512],
    later: &mut [u32; 512],
) -> Result<Filled, Refusal> {
    let o = chars(line, 2);
    let n = chars(line, 3);
    let c = chars(line, 4);
    let f = number(line, 5);
    let d = chars(line, 6);
    let e = chars(line, 7);
    if line[1] == 2 {
        calls::fill_delayed_2::<Bases>(bytes, o, n, c, f, d, e, out, late, later)
    } else {
        calls::fill_delayed_2::<Flags>(bytes, o, n, c, f, d, e, out, late, later)
    }
}

fn windows<W: Write>(to: &mut W, line: &[u64; 512], bytes: &[u8]) -> io::Result<()> {
    let mut out = [0u32; 512];
    let o = chars(line, 1);
    let n = chars(line, 2);
    let c = chars(line, 3);
    let k = chars(line, 4);
    let skip = number(line, 5);
    let filled = windows::flags::fill_windows(bytes, o, n, c, k, skip, &mut out);
    print::filled(to, filled)?;
    print::entries(to, &out, written(filled))
}
