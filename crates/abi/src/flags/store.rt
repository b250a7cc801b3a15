// Stores of flags: a buffer and its length, which a call brings up to date.
ghost use Rattle.std.specs.Prelude.{◌≡◌, length};
ghost use Rattle.given.specs.Face.{said};
ghost use Rattle.stores.specs.Stores as Stores;
ghost use Rattle.stores.specs.Stores.{answered, after};

use codes::widths::Flags;
use face::inner::store;

#[unsafe(no_mangle)]
pub extern "C" fn tsiv_flags_clear(buffer: &mut [u8], len: &mut usize) -> u32
    ensures says { said result (0, 0, len.new) ≡ answered 1 (length buffer.old) 0 Stores.clear }
    ensures bytes { buffer.new ≡ after 1 buffer.old 0 Stores.clear }
{
    store::clear::<Flags>(buffer, len)
}

#[unsafe(no_mangle)]
pub extern "C" fn tsiv_flags_push_ascii(
    buffer: &mut [u8],
    len: &mut usize,
    letters: &[u8],
    start: &mut usize,
    end: &mut usize,
) -> u32
    ensures says { said result (start.new, end.new, len.new)
        ≡ answered 1 (length buffer.old) len.old (Stores.push_ascii letters.now) }
    ensures bytes { buffer.new ≡ after 1 buffer.old len.old (Stores.push_ascii letters.now) }
{
    store::push_ascii::<Flags>(buffer, len, letters, start, end)
}

#[unsafe(no_mangle)]
pub extern "C" fn tsiv_flags_push_seq(
    buffer: &mut [u8],
    len: &mut usize,
    bytes: &[u8],
    offset: usize,
    count: usize,
    start: &mut usize,
    end: &mut usize,
) -> u32
    ensures says { said result (start.new, end.new, len.new)
        ≡ answered 1 (length buffer.old) len.old (Stores.push_seq bytes.now offset count) }
    ensures bytes { buffer.new ≡ after 1 buffer.old len.old (Stores.push_seq bytes.now offset count) }
{
    store::push_seq::<Flags>(buffer, len, bytes, offset, count, start, end)
}

#[unsafe(no_mangle)]
pub extern "C" fn tsiv_flags_overwrite(
    buffer: &mut [u8],
    len: &mut usize,
    start: usize,
    letters: &[u8],
) -> u32
    ensures says { said result (0, 0, len.new)
        ≡ answered 1 (length buffer.old) len.old (Stores.overwrite start letters.now) }
    ensures bytes { buffer.new ≡ after 1 buffer.old len.old (Stores.overwrite start letters.now) }
{
    store::overwrite::<Flags>(buffer, len, start, letters)
}

#[unsafe(no_mangle)]
pub extern "C" fn tsiv_flags_cut(buffer: &mut [u8], len: &mut usize, m: usize) -> u32
    ensures says { said result (0, 0, len.new) ≡ answered 1 (length buffer.old) len.old (Stores.cut m) }
    ensures bytes { buffer.new ≡ after 1 buffer.old len.old (Stores.cut m) }
{
    store::cut::<Flags>(buffer, len, m)
}
