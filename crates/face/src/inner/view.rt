// One view, at any width.
ghost use Rattle.std.specs.Prelude.{◌≡◌};
ghost use Rattle.codes.specs.Refusals.{if_done, number_of};
ghost use Rattle.given.specs.Face.{said};
ghost use Rattle.fields.specs.Fields.{got, as_u64, as_u128, flipped_as_u64, flipped_as_u128};
ghost use Rattle.views.specs.Views.{got_sliced};
ghost use Rattle.writes.specs.Writes.{unpack_outcome, unpacked_over, flip_outcome, flipped_over};

use codes::units::Chars;
use codes::widths::Width;
use fields::inner::parts::get_at;
use given::inner::give;
use views::calls;

pub fn get<W: Width>(bytes: &[u8], offset: usize, len: usize, i: usize, code: &mut u8) -> u32
    ensures { said result code.new ≡ got W.BITS bytes.now offset len i }
{
    give::number(
        get_at::<W>(bytes, Chars::new(offset), Chars::new(len), Chars::new(i)),
        0,
        code,
    )
}

pub fn get_sliced<W: Width>(
    bytes: &[u8],
    offset: usize,
    len: usize,
    start: usize,
    end: usize,
    i: usize,
    code: &mut u8,
) -> u32
    ensures { said result code.new ≡ got_sliced W.BITS bytes.now offset len start end i }
{
    give::number(
        calls::get_sliced::<W>(
            bytes,
            Chars::new(offset),
            Chars::new(len),
            Chars::new(start),
            Chars::new(end),
            Chars::new(i),
        ),
        0,
        code,
    )
}

pub fn as_u64<W: Width>(bytes: &[u8], offset: usize, len: usize, word: &mut u64) -> u32
    ensures { said result word.new ≡ as_u64 W.BITS bytes.now offset len }
{
    give::number(
        calls::as_u64::<W>(bytes, Chars::new(offset), Chars::new(len)),
        0,
        word,
    )
}

pub fn revcomp_as_u64<W: Width>(bytes: &[u8], offset: usize, len: usize, word: &mut u64) -> u32
    ensures { said result word.new ≡ flipped_as_u64 W.BITS bytes.now offset len }
{
    give::number(
        calls::revcomp_as_u64::<W>(bytes, Chars::new(offset), Chars::new(len)),
        0,
        word,
    )
}

pub fn as_u128<W: Width>(
    bytes: &[u8],
    offset: usize,
    len: usize,
    low: &mut u64,
    high: &mut u64,
) -> u32
    ensures { said result (low.new, high.new) ≡ as_u128 W.BITS bytes.now offset len }
{
    give::word128(
        calls::as_u128::<W>(bytes, Chars::new(offset), Chars::new(len)),
        low,
        high,
    )
}

pub fn revcomp_as_u128<W: Width>(
    bytes: &[u8],
    offset: usize,
    len: usize,
    low: &mut u64,
    high: &mut u64,
) -> u32
    ensures { said result (low.new, high.new) ≡ flipped_as_u128 W.BITS bytes.now offset len }
{
    give::word128(
        calls::revcomp_as_u128::<W>(bytes, Chars::new(offset), Chars::new(len)),
        low,
        high,
    )
}

pub fn to_revcomp<W: Width>(bytes: &[u8], offset: usize, len: usize, out: &mut [u8]) -> u32
    ensures number { result ≡ number_of (flip_outcome W.BITS bytes.now offset len out.old) }
    ensures bytes { out.new ≡ if_done (flip_outcome W.BITS bytes.now offset len out.old)
        (flipped_over W.BITS bytes.now offset len out.old) out.old }
{
    give::no(writes::calls::to_revcomp::<W>(bytes, Chars::new(offset), Chars::new(len), out))
}

// The letters of a view of bases.
pub fn unpack(bytes: &[u8], offset: usize, len: usize, out: &mut [u8]) -> u32
    ensures number { result ≡ number_of (unpack_outcome bytes.now offset len out.old) }
    ensures bytes { out.new ≡ if_done (unpack_outcome bytes.now offset len out.old)
        (unpacked_over bytes.now offset len out.old) out.old }
{
    give::no(writes::calls::unpack(bytes, Chars::new(offset), Chars::new(len), out))
}
