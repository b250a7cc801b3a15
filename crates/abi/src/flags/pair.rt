// Two views of flags.
ghost use Rattle.std.specs.Prelude.{Bool, ◌≡◌};
ghost use Rattle.given.specs.Face.{said, Part};
ghost use Rattle.face.specs.Parts.{least_part};
ghost use Rattle.order.specs.Order.{compared, found};

use codes::widths::Flags;
use face::inner::{pair, parts};

#[unsafe(no_mangle)]
pub extern "C" fn tsiv_flags_compare(
    a: &[u8],
    ao: usize,
    al: usize,
    b: &[u8],
    bo: usize,
    bl: usize,
    order: &mut i32,
    common: &mut usize,
) -> u32
    ensures { said result (order.new, common.new) ≡ compared 1 a.now ao al b.now bo bl }
{
    pair::compare::<Flags>(a, ao, al, b, bo, bl, order, common)
}

#[unsafe(no_mangle)]
pub extern "C" fn tsiv_flags_find(
    text: &[u8],
    to: usize,
    tl: usize,
    pattern: &[u8],
    po: usize,
    pl: usize,
    there: &mut bool,
    place: &mut usize,
) -> u32
    ensures { said result (there.new, place.new) ≡ found 1 text.now to tl pattern.now po pl }
{
    pair::find::<Flags>(text, to, tl, pattern, po, pl, there, place)
}

// The part of whichever view comes first, and whether that is the second.
#[unsafe(no_mangle)]
pub extern "C" fn tsiv_flags_least(
    a: &[u8],
    ao: usize,
    al: usize,
    b: &[u8],
    bo: usize,
    bl: usize,
    second: &mut bool,
    at: &mut usize,
    size: &mut usize,
    part_offset: &mut usize,
    part_len: &mut usize,
) -> u32
    ensures { said {A = Bool × Part} result (second.new, (at.new, size.new, part_offset.new, part_len.new))
        ≡ least_part 1 a.now ao al b.now bo bl }
{
    parts::least::<Flags>(
        a,
        ao,
        al,
        b,
        bo,
        bl,
        second,
        at,
        size,
        part_offset,
        part_len,
    )
}
