// .2bit files.
ghost use Rattle.std.specs.Prelude.{◌≡◌};
ghost use Rattle.given.specs.Face.{said};
ghost use Rattle.twobit.specs.Files.{offset_size};
ghost use Rattle.twobit.specs.Reading.{check_answer, first_answer, entry_answer, info_answer, record_answer, bases_after, flags_after};
ghost use Rattle.twowrite.specs.Writing.{writing, start_answer, start_after, size_answer, add_answer, add_after, finish_answer};

use plain::inner::files;

#[unsafe(no_mangle)]
pub extern "C" fn tsiv_twobit_start(
    count: usize,
    names: usize,
    out: &mut [u8],
    entry: &mut usize,
    stop: &mut usize,
    place: &mut usize,
    left: &mut usize,
) -> u32
    ensures answer { said result (writing entry.new stop.new place.new left.new)
        ≡ start_answer 0 offset_size count names out.old }
    ensures bytes { out.new ≡ start_after 0 offset_size count names out.old }
{
    files::start(count, names, out, entry, stop, place, left)
}

#[unsafe(no_mangle)]
pub extern "C" fn tsiv_twobit_record_size(
    flags: &[u8],
    flag_offset: usize,
    flag_len: usize,
    size: &mut usize,
) -> u32
    ensures { said result size.new ≡ size_answer flags.now flag_offset flag_len }
{
    files::record_size(flags, flag_offset, flag_len, size)
}

#[unsafe(no_mangle)]
pub extern "C" fn tsiv_twobit_add(
    entry: &mut usize,
    stop: usize,
    place: &mut usize,
    left: &mut usize,
    name: &[u8],
    bases: &[u8],
    base_offset: usize,
    base_len: usize,
    flags: &[u8],
    flag_offset: usize,
    flag_len: usize,
    out: &mut [u8],
) -> u32
    ensures answer { said result (writing entry.new stop place.new left.new)
        ≡ add_answer offset_size (writing entry.old stop place.old left.old) name.now
        bases.now base_offset base_len flags.now flag_offset flag_len out.old }
    ensures bytes { out.new
        ≡ add_after offset_size (writing entry.old stop place.old left.old) name.now
        bases.now base_offset base_len flags.now flag_offset flag_len out.old }
{
    files::add(
        entry,
        stop,
        place,
        left,
        name,
        bases,
        base_offset,
        base_len,
        flags,
        flag_offset,
        flag_len,
        out,
    )
}

#[unsafe(no_mangle)]
pub extern "C" fn tsiv_twobit_finish(
    entry: usize,
    stop: usize,
    place: usize,
    left: usize,
    size: &mut usize,
) -> u32
    ensures { said result size.new ≡ finish_answer (writing entry stop place left) }
{
    files::finish(entry, stop, place, left, size)
}

#[unsafe(no_mangle)]
pub extern "C" fn tsiv_twobit_check(file: &[u8], count: &mut usize) -> u32
    ensures { said result count.new ≡ check_answer file.now }
{
    files::check(file, count)
}

#[unsafe(no_mangle)]
pub extern "C" fn tsiv_twobit_first(file: &[u8], number: &mut usize, at: &mut usize) -> u32
    ensures { said result (number.new, at.new) ≡ first_answer file.now }
{
    files::first(file, number, at)
}

#[unsafe(no_mangle)]
pub extern "C" fn tsiv_twobit_entry(
    file: &[u8],
    number: &mut usize,
    at: &mut usize,
    name: &mut usize,
    name_size: &mut usize,
    offset: &mut usize,
) -> u32
    ensures { said result ((name.new, name_size.new), (offset.new, (number.new, at.new)))
        ≡ entry_answer offset_size file.now number.old at.old }
{
    files::entry(file, number, at, name, name_size, offset)
}

#[unsafe(no_mangle)]
pub extern "C" fn tsiv_twobit_record_info(
    file: &[u8],
    offset: usize,
    len: &mut usize,
    blocks: &mut usize,
    masks: &mut usize,
) -> u32
    ensures { said result (len.new, (blocks.new, masks.new)) ≡ info_answer file.now offset }
{
    files::record_info(file, offset, len, blocks, masks)
}

#[unsafe(no_mangle)]
pub extern "C" fn tsiv_twobit_record(
    file: &[u8],
    offset: usize,
    bases: &mut [u8],
    flags: &mut [u8],
    len: &mut usize,
    masks: &mut usize,
) -> u32
    ensures answer { said result (len.new, masks.new)
        ≡ record_answer file.now offset bases.old flags.old }
    ensures base_bytes { bases.new ≡ bases_after file.now offset bases.old flags.old }
    ensures flag_bytes { flags.new ≡ flags_after file.now offset bases.old flags.old }
{
    files::record(file, offset, bases, flags, len, masks)
}
