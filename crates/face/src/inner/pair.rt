// Two views, at any width.
ghost use Rattle.std.specs.Prelude.{◌≡◌};
ghost use Rattle.given.specs.Face.{said};
ghost use Rattle.order.specs.Order.{compared, found};

use codes::units::Chars;
use codes::widths::Width;
use given::inner::give;
use order::calls;

pub fn compare<W: Width>(
    a: &[u8],
    ao: usize,
    al: usize,
    b: &[u8],
    bo: usize,
    bl: usize,
    order: &mut i32,
    common: &mut usize,
) -> u32
    ensures { said result (order.new, common.new) ≡ compared W.BITS a.now ao al b.now bo bl }
{
    give::compared(
        calls::compare::<W>(
            a,
            Chars::new(ao),
            Chars::new(al),
            b,
            Chars::new(bo),
            Chars::new(bl),
        ),
        order,
        common,
    )
}

pub fn find<W: Width>(
    text: &[u8],
    to: usize,
    tl: usize,
    pattern: &[u8],
    po: usize,
    pl: usize,
    there: &mut bool,
    place: &mut usize,
) -> u32
    ensures { said result (there.new, place.new) ≡ found W.BITS text.now to tl pattern.now po pl }
{
    give::found(
        calls::find::<W>(
            text,
            Chars::new(to),
            Chars::new(tl),
            pattern,
            Chars::new(po),
            Chars::new(pl),
        ),
        there,
        place,
    )
}
