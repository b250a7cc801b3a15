// The sequence of a record into two stores: whether it can be read, and its flags.
ghost use Rattle.std.specs.Prelude.{true, ◌≡◌, ◌+◌, ◌≤◌, length};
ghost use Rattle.codes.specs.Codes.{up, trailing, tab};
ghost use Rattle.codes.specs.Refusals.{answer, first};
ghost use Rattle.codes.specs.Words.{packed};
ghost use Rattle.forms.specs.Reading.{filled_with};
ghost use Rattle.twobit.specs.Blocks.{all_inside, flag_under};
ghost use Rattle.twobit.specs.Inner.{ready_says, held_at, none_held};
ghost use Rattle.twobit.specs.Reading.{block_count, blocks_at, blocks_end, record_tests};

use crate::inner::blocks::block_at;
use crate::inner::files::header_of;
use crate::inner::records::{Parts, record_at};
use codes::inner::checks::{bad_store, too_long};
use codes::inner::tracks::zero_run;
use codes::refusals::Refusal;
use codes::units::{Chars, TRAILING};
use codes::widths::{Bases, Flags};
use dna::inner::marks::mark_run;

// A record that can be read: the byte order, and its parts.
#[derive(Clone, Copy)]
pub struct Ready {
    pub big: bool,
    pub parts: Parts,
}

// Whether the record at byte r can be read into buffers of so many bytes.
pub(crate) fn record_ready(
    file: &[u8],
    r: usize,
    base_room: usize,
    flag_room: usize,
) -> Result<Ready, Refusal>
    ensures { ready_says result ≡
        answer (first (record_tests file.now r base_room flag_room)) (held_at file.now r) none_held }
{
    if too_long(base_room) {
        return Err(Refusal::TooLong);
    }
    if too_long(flag_room) {
        return Err(Refusal::TooLong);
    }
    let header = header_of(file).ok_or(Refusal::BadForm)?;
    let parts = record_at(file, header.big, r).ok_or(Refusal::BadForm)?;
    let len = Chars::new(parts.size);
    if bad_store::<Bases>(base_room, len) {
        return Err(Refusal::NoRoom);
    }
    if bad_store::<Flags>(flag_room, len) {
        return Err(Refusal::NoRoom);
    }
    Ok(Ready {
        big: header.big,
        parts,
    })
}

// Fills a buffer as a store of `size` flags, set under each of the n blocks from byte p on.
pub(crate) fn fill_flags(file: &[u8], big: bool, p: usize, n: usize, size: usize, flags: &mut [u8])
    requires n_value { (n ≡ block_count big file.now p) × (blocks_end big file.now p ≤ length file.now) }
    requires p_value { all_inside size (blocks_at big file.now p) ≡ true }
    requires trailing_in_bounds { up 1 size + trailing ≤ length flags.old }
    ensures { flags.new ≡
        filled_with (packed 1 (tab size (flag_under (blocks_at big file.now p)))) flags.old }
{
    let used = Chars::new(size).bytes_as::<Flags>().count();
    zero_run(flags, 0, used + TRAILING);
    for i in (0..n).rev() {
        let block = block_at(file, big, p, n, i);
        mark_run(flags, block.start, block.end);
    }
}
