// One view of bases.
ghost use Rattle.std.specs.Prelude.{◌≡◌};
ghost use Rattle.codes.specs.Refusals.{if_done, number_of};
ghost use Rattle.given.specs.Face.{said};
ghost use Rattle.face.specs.Parts.{made_part, sliced_part, normalised_part};
ghost use Rattle.fields.specs.Fields.{got, as_u64, as_u128, flipped_as_u64, flipped_as_u128};
ghost use Rattle.views.specs.Views.{got_sliced};
ghost use Rattle.writes.specs.Writes.{unpack_outcome, unpacked_over, flip_outcome, flipped_over};

use codes::widths::Bases;
use face::inner::{parts, view};

// The view itself, where it is accepted.
#[unsafe(no_mangle)]
pub extern "C" fn tsiv_bases_view(
    bytes: &[u8],
    offset: usize,
    len: usize,
    at: &mut usize,
    size: &mut usize,
    part_offset: &mut usize,
    part_len: &mut usize,
) -> u32
    ensures { said result (at.new, size.new, part_offset.new, part_len.new)
        ≡ made_part 2 bytes.now offset len }
{
    parts::made::<Bases>(bytes, offset, len, at, size, part_offset, part_len)
}

#[unsafe(no_mangle)]
pub extern "C" fn tsiv_bases_slice(
    bytes: &[u8],
    offset: usize,
    len: usize,
    start: usize,
    end: usize,
    at: &mut usize,
    size: &mut usize,
    part_offset: &mut usize,
    part_len: &mut usize,
) -> u32
    ensures { said result (at.new, size.new, part_offset.new, part_len.new)
        ≡ sliced_part 2 bytes.now offset len start end }
{
    parts::sliced::<Bases>(
        bytes,
        offset,
        len,
        start,
        end,
        at,
        size,
        part_offset,
        part_len,
    )
}

#[unsafe(no_mangle)]
pub extern "C" fn tsiv_bases_normalise(
    bytes: &[u8],
    offset: usize,
    len: usize,
    at: &mut usize,
    size: &mut usize,
    part_offset: &mut usize,
    part_len: &mut usize,
) -> u32
    ensures { said result (at.new, size.new, part_offset.new, part_len.new)
        ≡ normalised_part 2 bytes.now offset len }
{
    parts::normalised::<Bases>(bytes, offset, len, at, size, part_offset, part_len)
}

#[unsafe(no_mangle)]
pub extern "C" fn tsiv_bases_get(
    bytes: &[u8],
    offset: usize,
    len: usize,
    i: usize,
    code: &mut u8,
) -> u32
    ensures { said result code.new ≡ got 2 bytes.now offset len i }
{
    view::get::<Bases>(bytes, offset, len, i, code)
}

#[unsafe(no_mangle)]
pub extern "C" fn tsiv_bases_get_sliced(
    bytes: &[u8],
    offset: usize,
    len: usize,
    start: usize,
    end: usize,
    i: usize,
    code: &mut u8,
) -> u32
    ensures { said result code.new ≡ got_sliced 2 bytes.now offset len start end i }
{
    view::get_sliced::<Bases>(bytes, offset, len, start, end, i, code)
}

#[unsafe(no_mangle)]
pub extern "C" fn tsiv_bases_as_u64(bytes: &[u8], offset: usize, len: usize, word: &mut u64) -> u32
    ensures { said result word.new ≡ as_u64 2 bytes.now offset len }
{
    view::as_u64::<Bases>(bytes, offset, len, word)
}

#[unsafe(no_mangle)]
pub extern "C" fn tsiv_bases_revcomp_as_u64(
    bytes: &[u8],
    offset: usize,
    len: usize,
    word: &mut u64,
) -> u32
    ensures { said result word.new ≡ flipped_as_u64 2 bytes.now offset len }
{
    view::revcomp_as_u64::<Bases>(bytes, offset, len, word)
}

#[unsafe(no_mangle)]
pub extern "C" fn tsiv_bases_as_u128(
    bytes: &[u8],
    offset: usize,
    len: usize,
    low: &mut u64,
    high: &mut u64,
) -> u32
    ensures { said result (low.new, high.new) ≡ as_u128 2 bytes.now offset len }
{
    view::as_u128::<Bases>(bytes, offset, len, low, high)
}

#[unsafe(no_mangle)]
pub extern "C" fn tsiv_bases_revcomp_as_u128(
    bytes: &[u8],
    offset: usize,
    len: usize,
    low: &mut u64,
    high: &mut u64,
) -> u32
    ensures { said result (low.new, high.new) ≡ flipped_as_u128 2 bytes.now offset len }
{
    view::revcomp_as_u128::<Bases>(bytes, offset, len, low, high)
}

#[unsafe(no_mangle)]
pub extern "C" fn tsiv_bases_to_revcomp(
    bytes: &[u8],
    offset: usize,
    len: usize,
    out: &mut [u8],
) -> u32
    ensures number { result ≡ number_of (flip_outcome 2 bytes.now offset len out.old) }
    ensures bytes { out.new ≡ if_done (flip_outcome 2 bytes.now offset len out.old)
        (flipped_over 2 bytes.now offset len out.old) out.old }
{
    view::to_revcomp::<Bases>(bytes, offset, len, out)
}

#[unsafe(no_mangle)]
pub extern "C" fn tsiv_bases_unpack(bytes: &[u8], offset: usize, len: usize, out: &mut [u8]) -> u32
    ensures number { result ≡ number_of (unpack_outcome bytes.now offset len out.old) }
    ensures bytes { out.new ≡ if_done (unpack_outcome bytes.now offset len out.old)
        (unpacked_over bytes.now offset len out.old) out.old }
{
    view::unpack(bytes, offset, len, out)
}
