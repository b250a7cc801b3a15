// Stores, at any width: a buffer and its length, which a call brings up to date.
ghost use Rattle.std.specs.Prelude.{◌≡◌, length};
ghost use Rattle.given.specs.Face.{said};
ghost use Rattle.stores.specs.Stores as Stores;
ghost use Rattle.stores.specs.Stores.{answered, after};

use codes::units::Chars;
use codes::widths::Width;
use given::inner::give;
use stores::calls;

pub fn clear<W: Width>(buffer: &mut [u8], len: &mut usize) -> u32
    ensures says { said result (0, 0, len.new) ≡ answered W.BITS (length buffer.old) 0 Stores.clear }
    ensures bytes { buffer.new ≡ after W.BITS buffer.old 0 Stores.clear }
{
    give::kept(calls::clear::<W>(buffer), len)
}

pub fn push_ascii<W: Width>(
    buffer: &mut [u8],
    len: &mut usize,
    letters: &[u8],
    start: &mut usize,
    end: &mut usize,
) -> u32
    ensures says { said result (start.new, end.new, len.new)
        ≡ answered W.BITS (length buffer.old) len.old (Stores.push_ascii letters.now) }
    ensures bytes { buffer.new ≡ after W.BITS buffer.old len.old (Stores.push_ascii letters.now) }
{
    give::pushed(
        calls::push_ascii::<W>(buffer, Chars::new(*len), letters),
        start,
        end,
        len,
    )
}

pub fn push_seq<W: Width>(
    buffer: &mut [u8],
    len: &mut usize,
    bytes: &[u8],
    offset: usize,
    count: usize,
    start: &mut usize,
    end: &mut usize,
) -> u32
    ensures says { said result (start.new, end.new, len.new)
        ≡ answered W.BITS (length buffer.old) len.old (Stores.push_seq bytes.now offset count) }
    ensures bytes { buffer.new ≡ after W.BITS buffer.old len.old (Stores.push_seq bytes.now offset count) }
{
    give::pushed(
        calls::push_seq::<W>(
            buffer,
            Chars::new(*len),
            bytes,
            Chars::new(offset),
            Chars::new(count),
        ),
        start,
        end,
        len,
    )
}

pub fn overwrite<W: Width>(buffer: &mut [u8], len: &mut usize, start: usize, letters: &[u8]) -> u32
    ensures says { said result (0, 0, len.new)
        ≡ answered W.BITS (length buffer.old) len.old (Stores.overwrite start letters.now) }
    ensures bytes { buffer.new ≡ after W.BITS buffer.old len.old (Stores.overwrite start letters.now) }
{
    give::kept(
        calls::overwrite::<W>(buffer, Chars::new(*len), Chars::new(start), letters),
        len,
    )
}

pub fn cut<W: Width>(buffer: &mut [u8], len: &mut usize, m: usize) -> u32
    ensures says { said result (0, 0, len.new) ≡ answered W.BITS (length buffer.old) len.old (Stores.cut m) }
    ensures bytes { buffer.new ≡ after W.BITS buffer.old len.old (Stores.cut m) }
{
    give::kept(
        calls::cut::<W>(buffer, Chars::new(*len), Chars::new(m)),
        len,
    )
}
