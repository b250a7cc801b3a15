// Lines of numbers from standard input, and the three buffers that cases speak of.
use crate::{stores_cases, streams_cases};
use cases::inner::{codes_cases, order_cases, print, views_cases};
use std::cmp::min;
use std::io;
use std::io::{Read, Write};

// How far a line has been read, the number that is open, if any, and how much of each buffer is in use.
#[derive(Clone, Copy)]
struct Scan {
    count: usize,
    open: Option<u64>,
    first: usize,
    second: usize,
    out: usize,
}

// What a proved loop reads has to end, and nothing says that the input does: the turns are counted, up to a number that no run uses up.
pub(crate) fn run_all<R: Read, W: Write>(from: &mut R, to: &mut W) -> io::Result<()> {
    let mut line = [0u64; 512];
    let mut first = [0u8; 512];
    let mut second = [0u8; 512];
    let mut out = [0u8; 512];
    let mut scan = start(0, 0, 0);
    let mut chunk = [0u8; 4096];
    for _ in 0..u64::MAX {
        let got = from.read(&mut chunk)?;
        if got == 0 {
            return Ok(());
        }
        scan = feed(
            to,
            scan,
            &chunk[..got],
            &mut line,
            &mut first,
            &mut second,
            &mut out,
        )?;
    }
    Ok(())
}

fn feed<W: Write>(
    to: &mut W,
    from: Scan,
    chunk: &[u8],
    line: &mut [u64; 512],
    first: &mut [u8; 512],
    second: &mut [u8; 512],
    out: &mut [u8; 512],
) -> io::Result<Scan> {
    let mut scan = from;
    for b in chunk {
        scan = take(to, scan, *b, line, first, second, out)?;
    }
    Ok(scan)
}

// One byte: a digit goes on with a number, anything else ends it, and a line's end runs the case.
fn take<W: Write>(
    to: &mut W,
    scan: Scan,
    b: u8,
    line: &mut [u64; 512],
    first: &mut [u8; 512],
    second: &mut [u8; 512],
    out: &mut [u8; 512],
) -> io::Result<Scan> {
    if b'0' <= b {
        if b <= b'9' {
            return Ok(digit(scan, b - b'0'));
        }
    }
    let next = keep(scan, line);
    if b == b'\n' {
        return run(to, next, line, first, second, out);
    }
    Ok(next)
}

// Numbers stay below 2^32.
fn digit(scan: Scan, d: u8) -> Scan {
    let value = scan.open.unwrap_or(0) % 0x1_0000_0000 * 10;
    Scan {
        open: Some(value + d as u64),
        ..scan
    }
}

// The number that was open, if any, put into the line.
fn keep(scan: Scan, line: &mut [u64; 512]) -> Scan {
    let at = scan.count;
    if let Some(value) = scan.open {
        if at < 512 {
            line[at] = value;
            return Scan {
                count: at + 1,
                open: None,
                ..scan
            };
        }
    }
    scan
}

// Calls 1 and 2 fill a buffer with the line's other numbers, call 3 fills the third with one number; any other call is a case.
fn run<W: Write>(
    to: &mut W,
    scan: Scan,
    line: &mut [u64; 512],
    first: &mut [u8; 512],
    second: &mut [u8; 512],
    out: &mut [u8; 512],
) -> io::Result<Scan> {
    let call = line[0];
    if call == 1 {
        return Ok(start(fill(line, scan.count, first), scan.second, scan.out));
    }
    if call == 2 {
        return Ok(start(scan.first, fill(line, scan.count, second), scan.out));
    }
    if call == 3 {
        return Ok(start(scan.first, scan.second, repeat(line[1], line[2], out)));
    }
    replay(to, call, line, scan, first, second, out)?;
    Ok(start(scan.first, scan.second, scan.out))
}

// Where the next line starts.
fn start(first: usize, second: usize, out: usize) -> Scan {
    Scan {
        count: 0,
        open: None,
        first,
        second,
        out,
    }
}

// A case, on the parts of the buffers that are in use.
fn replay<'a, W: Write>(
    to: &mut W,
    call: u64,
    line: &[u64; 512],
    scan: Scan,
    first: &'a [u8],
    second: &'a [u8],
    out: &mut [u8],
) -> io::Result<()> {
    let a = min(scan.first, first.len());
    let b = min(scan.second, second.len());
    let o = min(scan.out, out.len());
    run_case(to, call, line, &first[..a], &second[..b], &mut out[..o])?;
    print::end(to)
}

fn run_case<'a, W: Write>(
    to: &mut W,
    call: u64,
    line: &[u64; 512],
    first: &'a [u8],
    second: &'a [u8],
    out: &mut [u8],
) -> io::Result<()> {
    if call < 30 {
        codes_cases::run(to, call, line, first, out)
    } else if call < 40 {
        views_cases::run(to, call, line, first, out)
    } else if call < 50 {
        order_cases::run(to, call, line, first, second)
    } else if call < 60 {
        stores_cases::run(to, call, line, first, out)
    } else {
        streams_cases::run(to, call, line, first)
    }
}

// The line's numbers behind its first.
fn fill(line: &[u64; 512], n: usize, buffer: &mut [u8; 512]) -> usize {
    let size = min(n.saturating_sub(1), 511);
    for (byte, number) in buffer.iter_mut().zip(&line[1..size + 1]) {
        *byte = (*number % 256) as u8;
    }
    size
}

fn repeat(n: u64, b: u64, buffer: &mut [u8; 512]) -> usize {
    let size = min(n as usize, 512);
    buffer[..size].fill((b % 256) as u8);
    size
}
