// A record: whether its parts lie in the file, where they begin, and whether its blocks are sound.
ghost use Rattle.std.specs.Prelude.{◌≡◌, ◌+◌, leb, length, Some, None};
ghost use Rattle.codes.specs.Codes.{pick, up};
ghost use Rattle.twobit.specs.Inner.{table_says, parts_say, parts_of};
ghost use Rattle.twobit.specs.Reading.{block_count, blocks_end, size_at, dna_place, is_record};

use crate::inner::blocks::{all_apart, all_inside};
use codes::units::Chars;
use codes::widths::Bases;
use dna::inner::numbers::number_at;

// How many blocks there are, and the byte behind them.
#[derive(Clone, Copy)]
pub struct Table {
    pub count: usize,
    pub end: usize,
}

// The size of a sequence, the number of its N blocks and of its mask blocks, and where the latter and the packed bases begin.
#[derive(Clone, Copy)]
pub struct Parts {
    pub size: usize,
    pub blocks: usize,
    pub masks: usize,
    pub masks_at: usize,
    pub dna: usize,
}

// The blocks from byte p on, where they end within the file.
fn table_at(file: &[u8], big: bool, p: usize) -> Option<Table>
    ensures { table_says result ≡
        pick (leb (blocks_end big file.now p) (length file.now))
        (Some (block_count big file.now p, blocks_end big file.now p)) None }
{
    let len = file.len();
    if len < 4 {
        return None;
    }
    if len - 4 < p {
        return None;
    }
    let count = number_at(file, big, 4, p);
    if (len - 4 - p) / 8 < count {
        return None;
    }
    Some(Table {
        count,
        end: p + 4 + 8 * count,
    })
}

// The parts of the record at byte r, where it does not end early.
fn parts_at(file: &[u8], big: bool, r: usize) -> Option<Parts>
    ensures { parts_say result ≡
        pick (leb (dna_place big file.now r + up 2 (size_at big file.now r)) (length file.now))
        (Some (parts_of big file.now r)) None }
{
    let len = file.len();
    if len < 4 {
        return None;
    }
    if len - 4 < r {
        return None;
    }
    let size = number_at(file, big, 4, r);
    let blocks = table_at(file, big, r + 4)?;
    let masks = table_at(file, big, blocks.end)?;
    if len - masks.end < 4 {
        return None;
    }
    let dna = masks.end + 4;
    if len - dna < Chars::new(size).bytes_as::<Bases>().count() {
        return None;
    }
    Some(Parts {
        size,
        blocks: blocks.count,
        masks: masks.count,
        masks_at: blocks.end,
        dna,
    })
}

// The parts of a sound record at byte r.
pub(crate) fn record_at(file: &[u8], big: bool, r: usize) -> Option<Parts>
    ensures { parts_say result ≡ pick (is_record big file.now r) (Some (parts_of big file.now r)) None }
{
    let parts = parts_at(file, big, r)?;
    let blocks_at = r + 4;
    if !all_inside(file, big, blocks_at, parts.blocks, parts.size) {
        return None;
    }
    if !all_inside(file, big, parts.masks_at, parts.masks, parts.size) {
        return None;
    }
    if !all_apart(file, big, blocks_at, parts.blocks) {
        return None;
    }
    Some(parts)
}
