// Stores of flags with their counts: a buffer, its length, which a call brings up to date, and the entries beside it.
ghost use Rattle.std.specs.Prelude.{◌≡◌, length};
ghost use Rattle.counts.specs.Counts.{counted_answer, bytes_after, entries_after, queried};
ghost use Rattle.given.specs.Face.{said};
ghost use Rattle.stores.specs.Stores as Stores;

use codes::units::Chars;
use counts::flags;
use given::inner::give;

pub fn clear(buffer: &mut [u8], len: &mut usize, entries: &mut [u16]) -> u32
    ensures says { said result (0, 0, len.new)
        ≡ counted_answer (length buffer.old) 0 (length entries.old) Stores.clear }
    ensures bytes { buffer.new ≡ bytes_after buffer.old 0 (length entries.old) Stores.clear }
    ensures entries { entries.new ≡ entries_after buffer.old 0 entries.old Stores.clear }
{
    give::kept(flags::clear(buffer, entries), len)
}

pub fn push_ascii(
    buffer: &mut [u8],
    len: &mut usize,
    entries: &mut [u16],
    letters: &[u8],
    start: &mut usize,
    end: &mut usize,
) -> u32
    ensures says { said result (start.new, end.new, len.new)
        ≡ counted_answer (length buffer.old) len.old (length entries.old) (Stores.push_ascii letters.now) }
    ensures bytes { buffer.new
        ≡ bytes_after buffer.old len.old (length entries.old) (Stores.push_ascii letters.now) }
    ensures entries { entries.new
        ≡ entries_after buffer.old len.old entries.old (Stores.push_ascii letters.now) }
{
    give::pushed(
        flags::push_ascii(buffer, Chars::new(*len), entries, letters),
        start,
        end,
        len,
    )
}

pub fn push_seq(
    buffer: &mut [u8],
    len: &mut usize,
    entries: &mut [u16],
    bytes: &[u8],
    offset: usize,
    count: usize,
    start: &mut usize,
    end: &mut usize,
) -> u32
    ensures says { said result (start.new, end.new, len.new)
        ≡ counted_answer (length buffer.old) len.old (length entries.old) (Stores.push_seq bytes.now offset count) }
    ensures bytes { buffer.new
        ≡ bytes_after buffer.old len.old (length entries.old) (Stores.push_seq bytes.now offset count) }
    ensures entries { entries.new
        ≡ entries_after buffer.old len.old entries.old (Stores.push_seq bytes.now offset count) }
{
    give::pushed(
        flags::push_seq(
            buffer,
            Chars::new(*len),
            entries,
            bytes,
            Chars::new(offset),
            Chars::new(count),
        ),
        start,
        end,
        len,
    )
}

pub fn overwrite(
    buffer: &mut [u8],
    len: &mut usize,
    entries: &mut [u16],
    start: usize,
    letters: &[u8],
) -> u32
    ensures says { said result (0, 0, len.new)
        ≡ counted_answer (length buffer.old) len.old (length entries.old) (Stores.overwrite start letters.now) }
    ensures bytes { buffer.new
        ≡ bytes_after buffer.old len.old (length entries.old) (Stores.overwrite start letters.now) }
    ensures entries { entries.new
        ≡ entries_after buffer.old len.old entries.old (Stores.overwrite start letters.now) }
{
    give::kept(
        flags::overwrite(
            buffer,
            Chars::new(*len),
            entries,
            Chars::new(start),
            letters,
        ),
        len,
    )
}

pub fn cut(buffer: &mut [u8], len: &mut usize, entries: &mut [u16], m: usize) -> u32
    ensures says { said result (0, 0, len.new)
        ≡ counted_answer (length buffer.old) len.old (length entries.old) (Stores.cut m) }
    ensures bytes { buffer.new ≡ bytes_after buffer.old len.old (length entries.old) (Stores.cut m) }
    ensures entries { entries.new ≡ entries_after buffer.old len.old entries.old (Stores.cut m) }
{
    give::kept(
        flags::cut(buffer, Chars::new(*len), entries, Chars::new(m)),
        len,
    )
}

pub fn count(
    buffer: &[u8],
    len: usize,
    entries: &[u16],
    start: usize,
    end: usize,
    total: &mut u64,
) -> u32
    ensures { said result total.new ≡ queried buffer.now len entries.now start end }
{
    give::number(
        flags::count(
            buffer,
            Chars::new(len),
            entries,
            Chars::new(start),
            Chars::new(end),
        ),
        0,
        total,
    )
}
