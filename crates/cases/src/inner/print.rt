// An answer as a line of numbers: the refusal number, then the others.
use codes::inner::bits::Pair;
use codes::refusals::{Refusal, number_of};
use codes::units::Chars;
use fields::inner::parts::Numbers;
use order::answers::Compared;
use std::cmp::Ordering;
use std::io;
use std::io::Write;
use stores::answers::{Pushed, Unchanged};
use streams::answers::Filled;

pub(crate) fn number<W: Write>(to: &mut W, n: u64) -> io::Result<()> {
    write!(to, "{n} ")
}

pub(crate) fn byte<W: Write>(to: &mut W, b: u8) -> io::Result<()> {
    number(to, b as u64)
}

pub(crate) fn count<W: Write>(to: &mut W, n: Chars) -> io::Result<()> {
    number(to, n.count() as u64)
}

// A refusal and a zero.
fn refused_one<W: Write>(to: &mut W, r: Refusal) -> io::Result<()> {
    byte(to, r.number())?;
    byte(to, 0)
}

// A refusal and two zeros.
fn refused_two<W: Write>(to: &mut W, r: Refusal) -> io::Result<()> {
    refused_one(to, r)?;
    byte(to, 0)
}

pub fn end<W: Write>(to: &mut W) -> io::Result<()> {
    to.write_all(b"\n")
}

// The bytes of a buffer, each a number.
pub fn bytes<W: Write>(to: &mut W, s: &[u8]) -> io::Result<()> {
    for b in s {
        byte(to, *b)?;
    }
    Ok(())
}

// The first n entries of a stream.
pub fn entries<W: Write>(to: &mut W, s: &[u32; 512], n: usize) -> io::Result<()> {
    for x in s.iter().take(n) {
        entry(to, *x)?;
    }
    Ok(())
}

fn entry<W: Write>(to: &mut W, x: u32) -> io::Result<()> {
    number(to, x as u64)
}

// One number.
pub(crate) fn word<W: Write, T: Into<u64> + Copy>(
    to: &mut W,
    answer: Result<T, Refusal>,
) -> io::Result<()> {
    match answer {
        Ok(x) => {
            byte(to, 0)?;
            number(to, x.into())
        }
        Err(r) => refused_one(to, r),
    }
}

pub(crate) fn word128<W: Write>(to: &mut W, answer: Result<Pair, Refusal>) -> io::Result<()> {
    match answer {
        Ok(pair) => {
            byte(to, 0)?;
            number(to, pair.low)?;
            number(to, pair.high)
        }
        Err(r) => refused_two(to, r),
    }
}

pub(crate) fn outcome<W: Write>(to: &mut W, o: Result<(), Refusal>) -> io::Result<()> {
    byte(to, number_of(o))
}

// 0 for less, 1 for equal, 2 for greater.
fn order<W: Write>(to: &mut W, o: Ordering) -> io::Result<()> {
    match o {
        Ordering::Less => byte(to, 0),
        Ordering::Equal => byte(to, 1),
        Ordering::Greater => byte(to, 2),
    }
}

pub(crate) fn compared<W: Write>(to: &mut W, answer: Result<Compared, Refusal>) -> io::Result<()> {
    match answer {
        Ok(c) => {
            byte(to, 0)?;
            order(to, c.order)?;
            count(to, c.common)
        }
        Err(r) => refused_two(to, r),
    }
}

pub(crate) fn found<W: Write>(
    to: &mut W,
    answer: Result<Option<Chars>, Refusal>,
) -> io::Result<()> {
    match answer {
        Ok(Some(place)) => {
            byte(to, 0)?;
            byte(to, 1)?;
            count(to, place)
        }
        Ok(None) => {
            byte(to, 0)?;
            byte(to, 0)?;
            byte(to, 0)
        }
        Err(r) => refused_two(to, r),
    }
}

pub(crate) fn least<W: Write>(to: &mut W, answer: Result<Numbers, Refusal>) -> io::Result<()> {
    match answer {
        Ok(numbers) => {
            byte(to, 0)?;
            count(to, numbers.offset)?;
            count(to, numbers.len)
        }
        Err(r) => refused_two(to, r),
    }
}

pub fn pushed<W: Write>(to: &mut W, answer: Result<Pushed, Unchanged>) -> io::Result<()> {
    match answer {
        Ok(p) => {
            byte(to, 0)?;
            count(to, p.start)?;
            count(to, p.end)?;
            count(to, p.end)
        }
        Err(u) => {
            refused_two(to, u.refusal)?;
            count(to, u.len)
        }
    }
}

pub fn kept<W: Write>(to: &mut W, answer: Result<Chars, Unchanged>) -> io::Result<()> {
    match answer {
        Ok(len) => {
            byte(to, 0)?;
            count(to, len)
        }
        Err(u) => {
            byte(to, u.refusal.number())?;
            count(to, u.len)
        }
    }
}

pub fn filled<W: Write>(to: &mut W, answer: Result<Filled, Refusal>) -> io::Result<()> {
    match answer {
        Ok(f) => {
            byte(to, 0)?;
            number(to, f.steps as u64)?;
            count(to, f.padding)
        }
        Err(r) => refused_two(to, r),
    }
}
