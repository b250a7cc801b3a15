// .2bit files.
ghost use Rattle.std.specs.Prelude.{◌≡◌};
ghost use Rattle.given.specs.Face.{said};
ghost use Rattle.twobit.specs.Files.{offset_size};
ghost use Rattle.twobit.specs.Reading.{check_answer, first_answer, entry_answer, info_answer, record_answer, bases_after, flags_after};
ghost use Rattle.twowrite.specs.Writing.{writing, start_answer, start_after, size_answer, add_answer, add_after, finish_answer};

use codes::units::Chars;
use given::inner::give;
use twobit::reading;
use twowrite::answers::Writing;
use twowrite::writing;

pub fn start(
    count: usize,
    names: usize,
    out: &mut [u8],
    entry: &mut usize,
    stop: &mut usize,
    place: &mut usize,
    left: &mut usize,
) -> u32
    ensures answer { said result (writing entry.new stop.new place.new left.new)
        ≡ start_answer 0 offset_size count names out.old }
    ensures bytes { out.new ≡ start_after 0 offset_size count names out.old }
{
    give::started(writing::start(count, names, out), entry, stop, place, left)
}

pub fn record_size(flags: &[u8], flag_offset: usize, flag_len: usize, size: &mut usize) -> u32
    ensures { said result size.new ≡ size_answer flags.now flag_offset flag_len }
{
    give::number(
        writing::record_size(flags, Chars::new(flag_offset), Chars::new(flag_len)),
        0,
        size,
    )
}

pub fn add(
    entry: &mut usize,
    stop: usize,
    place: &mut usize,
    left: &mut usize,
    name: &[u8],
    bases: &[u8],
    base_offset: usize,
    base_len: usize,
    flags: &[u8],
    flag_offset: usize,
    flag_len: usize,
    out: &mut [u8],
) -> u32
    ensures answer { said result (writing entry.new stop place.new left.new)
        ≡ add_answer offset_size (writing entry.old stop place.old left.old) name.now
        bases.now base_offset base_len flags.now flag_offset flag_len out.old }
    ensures bytes { out.new
        ≡ add_after offset_size (writing entry.old stop place.old left.old) name.now
        bases.now base_offset base_len flags.now flag_offset flag_len out.old }
{
    let state = Writing {
        entry: *entry,
        stop,
        place: *place,
        left: *left,
    };
    give::stepped(
        writing::add(
            state,
            name,
            bases,
            Chars::new(base_offset),
            Chars::new(base_len),
            flags,
            Chars::new(flag_offset),
            Chars::new(flag_len),
            out,
        ),
        entry,
        place,
        left,
    )
}

pub fn finish(entry: usize, stop: usize, place: usize, left: usize, size: &mut usize) -> u32
    ensures { said result size.new ≡ finish_answer (writing entry stop place left) }
{
    let state = Writing {
        entry,
        stop,
        place,
        left,
    };
    give::number(writing::finish(state), 0, size)
}

pub fn check(file: &[u8], count: &mut usize) -> u32
    ensures { said result count.new ≡ check_answer file.now }
{
    give::number(reading::check(file), 0, count)
}

pub fn first(file: &[u8], number: &mut usize, at: &mut usize) -> u32
    ensures { said result (number.new, at.new) ≡ first_answer file.now }
{
    give::cursor(reading::first(file), number, at)
}

pub fn entry(
    file: &[u8],
    number: &mut usize,
    at: &mut usize,
    name: &mut usize,
    name_size: &mut usize,
    offset: &mut usize,
) -> u32
    ensures { said result ((name.new, name_size.new), (offset.new, (number.new, at.new)))
        ≡ entry_answer offset_size file.now number.old at.old }
{
    give::entry(
        reading::entry(file, *number, *at),
        name,
        name_size,
        offset,
        number,
        at,
    )
}

pub fn record_info(
    file: &[u8],
    offset: usize,
    len: &mut usize,
    blocks: &mut usize,
    masks: &mut usize,
) -> u32
    ensures { said result (len.new, (blocks.new, masks.new)) ≡ info_answer file.now offset }
{
    give::info(reading::record_info(file, offset), len, blocks, masks)
}

pub fn record(
    file: &[u8],
    offset: usize,
    bases: &mut [u8],
    flags: &mut [u8],
    len: &mut usize,
    masks: &mut usize,
) -> u32
    ensures answer { said result (len.new, masks.new)
        ≡ record_answer file.now offset bases.old flags.old }
    ensures base_bytes { bases.new ≡ bases_after file.now offset bases.old flags.old }
    ensures flag_bytes { flags.new ≡ flags_after file.now offset bases.old flags.old }
{
    give::sequence(reading::record(file, offset, bases, flags), len, masks)
}
