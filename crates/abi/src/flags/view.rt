// One view of flags.
ghost use Rattle.std.specs.Prelude.{◌≡◌};
ghost use Rattle.codes.specs.Refusals.{if_done, number_of};
ghost use Rattle.given.specs.Face.{said};
ghost use Rattle.face.specs.Parts.{made_part, sliced_part, normalised_part};
ghost use Rattle.fields.specs.Fields.{got, as_u64, as_u128, flipped_as_u64, flipped_as_u128};
ghost use Rattle.views.specs.Views.{got_sliced};
ghost use Rattle.writes.specs.Writes.{flip_outcome, flipped_over};

use codes::widths::Flags;
use face::inner::{parts, view};

// The view itself, where it is accepted.
#[unsafe(no_mangle)]
pub extern "C" fn tsiv_flags_view(
    bytes: &[u8],
    offset: usize,
    len: usize,
    at: &mut usize,
    size: &mut usize,
    part_offset: &mut usize,
    part_len: &mut usize,
) -> u32
    ensures { said result (at.new, size.new, part_offset.new, part_len.new)
        ≡ made_part 1 bytes.now offset len }
{
    parts::made::<Flags>(bytes, offset, len, at, size, part_offset, part_len)
}

#[unsafe(no_mangle)]
pub extern "C" fn tsiv_flags_slice(
    bytes: &[u8],
    offset: usize,
    len: usize,
    start: usize,
    end: usize,
    at: &mut usize,
    size: &mut usize,
    part_offset: &mut usize,
    part_len: &mut usize,
) -> u32
    ensures { said result (at.new, size.new, part_offset.new, part_len.new)
        ≡ sliced_part 1 bytes.now offset len start end }
{
    parts::sliced::<Flags>(
        bytes,
        offset,
        len,
        start,
        end,
        at,
        size,
        part_offset,
        part_len,
    )
}

#[unsafe(no_mangle)]
pub extern "C" fn tsiv_flags_normalise(
    bytes: &[u8],
    offset: usize,
    len: usize,
    at: &mut usize,
    size: &mut usize,
    part_offset: &mut usize,
    part_len: &mut usize,
) -> u32
    ensures { said result (at.new, size.new, part_offset.new, part_len.new)
        ≡ normalised_part 1 bytes.now offset len }
{
    parts::normalised::<Flags>(bytes, offset, len, at, size, part_offset, part_len)
}

#[unsafe(no_mangle)]
pub extern "C" fn tsiv_flags_get(
    bytes: &[u8],
    offset: usize,
    len: usize,
    i: usize,
    code: &mut u8,
) -> u32
    ensures { said result code.new ≡ got 1 bytes.now offset len i }
{
    view::get::<Flags>(bytes, offset, len, i, code)
}

#[unsafe(no_mangle)]
pub extern "C" fn tsiv_flags_get_sliced(
    bytes: &[u8],
    offset: usize,
    len: usize,
    start: usize,
    end: usize,
    i: usize,
    code: &mut u8,
) -> u32
    ensures { said result code.new ≡ got_sliced 1 bytes.now offset len start end i }
{
    view::get_sliced::<Flags>(bytes, offset, len, start, end, i, code)
}

#[unsafe(no_mangle)]
pub extern "C" fn tsiv_flags_as_u64(bytes: &[u8], offset: usize, len: usize, word: &mut u64) -> u32
    ensures { said result word.new ≡ as_u64 1 bytes.now offset len }
{
    view::as_u64::<Flags>(bytes, offset, len, word)
}

#[unsafe(no_mangle)]
pub extern "C" fn tsiv_flags_revcomp_as_u64(
    bytes: &[u8],
    offset: usize,
    len: usize,
    word: &mut u64,
) -> u32
    ensures { said result word.new ≡ flipped_as_u64 1 bytes.now offset len }
{
    view::revcomp_as_u64::<Flags>(bytes, offset, len, word)
}

#[unsafe(no_mangle)]
pub extern "C" fn tsiv_flags_as_u128(
    bytes: &[u8],
    offset: usize,
    len: usize,
    low: &mut u64,
    high: &mut u64,
) -> u32
    ensures { said result (low.new, high.new) ≡ as_u128 1 bytes.now offset len }
{
    view::as_u128::<Flags>(bytes, offset, len, low, high)
}

#[unsafe(no_mangle)]
pub extern "C" fn tsiv_flags_revcomp_as_u128(
    bytes: &[u8],
    offset: usize,
    len: usize,
    low: &mut u64,
    high: &mut u64,
) -> u32
    ensures { said result (low.new, high.new) ≡ flipped_as_u128 1 bytes.now offset len }
{
    view::revcomp_as_u128::<Flags>(bytes, offset, len, low, high)
}

#[unsafe(no_mangle)]
pub extern "C" fn tsiv_flags_to_revcomp(
    bytes: &[u8],
    offset: usize,
    len: usize,
    out: &mut [u8],
) -> u32
    ensures number { result ≡ number_of (flip_outcome 1 bytes.now offset len out.old) }
    ensures bytes { out.new ≡ if_done (flip_outcome 1 bytes.now offset len out.old)
        (flipped_over 1 bytes.now offset len out.old) out.old }
{
    view::to_revcomp::<Flags>(bytes, offset, len, out)
}
