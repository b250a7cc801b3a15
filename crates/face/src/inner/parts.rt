// Parts of a lent buffer, at any width: where the part lies, and the numbers of the view that it holds.
ghost use Rattle.std.specs.Prelude.{Ok, Bool, ◌≡◌, length};
ghost use Rattle.codes.specs.Refusals.{first, view_tests};
ghost use Rattle.given.specs.Face as Face;
ghost use Rattle.given.specs.Face.{said};
ghost use Rattle.given.specs.Parts.{part_numbers, part_says};
ghost use Rattle.face.specs.Parts.{part_of, made_part, sliced_part, normalised_part, least_part, least_says};

use codes::inner::counts::{byte_of, within_byte};
use codes::refusals::Refusal;
use codes::units::Chars;
use codes::widths::Width;
use fields::inner::parts::{accepted_part, slice_numbers, view_outcome};
use given::inner::give;
use given::inner::parts::{NO_PART, Part};
use order::inner::least::choose;

fn made_part<W: Width>(bytes: &[u8], offset: Chars, len: Chars) -> Result<Part, Refusal>
    ensures { part_says result ≡ made_part W.BITS bytes.now offset.0 len.0 }
{
    view_outcome::<W>(bytes, offset, len)?;
    Ok(Part {
        first: 0,
        size: bytes.len(),
        offset: offset.count(),
        len: len.count(),
    })
}

fn sliced_part<W: Width>(
    bytes: &[u8],
    offset: Chars,
    len: Chars,
    start: Chars,
    end: Chars,
) -> Result<Part, Refusal>
    ensures { part_says result ≡ sliced_part W.BITS bytes.now offset.0 len.0 start.0 end.0 }
{
    let numbers = slice_numbers::<W>(bytes, offset, len, start, end)?;
    Ok(Part {
        first: 0,
        size: bytes.len(),
        offset: numbers.offset.count(),
        len: numbers.len.count(),
    })
}

// The part of a view that is not refused.
fn normal<W: Width>(bytes: &[u8], offset: Chars, len: Chars) -> Part
    requires { first (view_tests W.BITS (length bytes.now) offset.0 len.0) ≡ Ok tt }
    ensures { part_numbers result ≡ part_of W.BITS offset.0 len.0 }
{
    Part {
        first: byte_of::<W>(offset).count(),
        size: accepted_part::<W>(bytes, offset, len).len(),
        offset: within_byte::<W>(offset).count(),
        len: len.count(),
    }
}

fn normalised_part<W: Width>(bytes: &[u8], offset: Chars, len: Chars) -> Result<Part, Refusal>
    ensures { part_says result ≡ normalised_part W.BITS bytes.now offset.0 len.0 }
{
    view_outcome::<W>(bytes, offset, len)?;
    Ok(normal::<W>(bytes, offset, len))
}

fn least_part<W: Width>(
    a: &[u8],
    ao: Chars,
    al: Chars,
    b: &[u8],
    bo: Chars,
    bl: Chars,
) -> Result<(bool, Part), Refusal>
    ensures { least_says result ≡ least_part W.BITS a.now ao.0 al.0 b.now bo.0 bl.0 }
{
    let second = choose::<W>(a, ao, al, b, bo, bl)?;
    let part = if second {
        normal::<W>(b, bo, bl)
    } else {
        normal::<W>(a, ao, al)
    };
    Ok((second, part))
}

// The view itself, where it is accepted.
pub fn made<W: Width>(
    bytes: &[u8],
    offset: usize,
    len: usize,
    at: &mut usize,
    size: &mut usize,
    part_offset: &mut usize,
    part_len: &mut usize,
) -> u32
    ensures { said result (at.new, size.new, part_offset.new, part_len.new)
        ≡ made_part W.BITS bytes.now offset len }
{
    let made = made_part::<W>(bytes, Chars::new(offset), Chars::new(len));
    give::part(made, at, size, part_offset, part_len)
}

pub fn sliced<W: Width>(
    bytes: &[u8],
    offset: usize,
    len: usize,
    start: usize,
    end: usize,
    at: &mut usize,
    size: &mut usize,
    part_offset: &mut usize,
    part_len: &mut usize,
) -> u32
    ensures { said result (at.new, size.new, part_offset.new, part_len.new)
        ≡ sliced_part W.BITS bytes.now offset len start end }
{
    let sliced = sliced_part::<W>(
        bytes,
        Chars::new(offset),
        Chars::new(len),
        Chars::new(start),
        Chars::new(end),
    );
    give::part(sliced, at, size, part_offset, part_len)
}

pub fn normalised<W: Width>(
    bytes: &[u8],
    offset: usize,
    len: usize,
    at: &mut usize,
    size: &mut usize,
    part_offset: &mut usize,
    part_len: &mut usize,
) -> u32
    ensures { said result (at.new, size.new, part_offset.new, part_len.new)
        ≡ normalised_part W.BITS bytes.now offset len }
{
    let normalised = normalised_part::<W>(bytes, Chars::new(offset), Chars::new(len));
    give::part(normalised, at, size, part_offset, part_len)
}

// The part of whichever view comes first, and whether that is the second.
pub fn least<W: Width>(
    a: &[u8],
    ao: usize,
    al: usize,
    b: &[u8],
    bo: usize,
    bl: usize,
    second: &mut bool,
    at: &mut usize,
    size: &mut usize,
    part_offset: &mut usize,
    part_len: &mut usize,
) -> u32
    ensures { said {A = Bool × Face.Part} result (second.new, (at.new, size.new, part_offset.new, part_len.new))
        ≡ least_part W.BITS a.now ao al b.now bo bl }
{
    let least = least_part::<W>(
        a,
        Chars::new(ao),
        Chars::new(al),
        b,
        Chars::new(bo),
        Chars::new(bl),
    );
    let (no, (which, part)) = give::split(least, (false, NO_PART));
    *second = which;
    part.give(at, size, part_offset, part_len);
    no
}
