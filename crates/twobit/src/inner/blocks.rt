// The blocks of a record: whether they lie inside the sequence, and whether any two share a position.
ghost use Rattle.std.specs.Prelude.{◌≡◌, ◌+◌, ◌-◌, ◌^◌, ◌≤◌, ◌<◌, length};
ghost use Rattle.twobit.specs.Blocks.{blocks_from, all_inside, clear_of, apart};
ghost use Rattle.twobit.specs.Reading.{block_count, block_at, blocks_at, blocks_end};

use dna::inner::numbers::number_at;

// A block: its first position, and the position behind it.
#[derive(Clone, Copy)]
pub(crate) struct Block {
    pub(crate) start: usize,
    pub(crate) end: usize,
}

// Block i of the n from byte p on.
pub(crate) fn block_at(file: &[u8], big: bool, p: usize, n: usize, i: usize) -> Block
    requires { (n ≡ block_count big file.now p) × (i < n) × (blocks_end big file.now p ≤ length file.now) }
    ensures { (result.start ≡ (block_at big file.now p i).start)
        × (result.end ≡ (block_at big file.now p i).start + (block_at big file.now p i).size) × (result.end < 2 ^ 33) }
{
    let start = number_at(file, big, 4, p + 4 + 4 * i);
    let size = number_at(file, big, 4, p + 4 + 4 * (n + i));
    Block {
        start,
        end: start + size,
    }
}

// Whether all n blocks from byte p on end within `size` positions.
pub(crate) fn all_inside(file: &[u8], big: bool, p: usize, n: usize, size: usize) -> bool
    requires { (n ≡ block_count big file.now p) × (blocks_end big file.now p ≤ length file.now) }
    ensures { result ≡ all_inside size (blocks_at big file.now p) }
{
    for i in 0..n {
        let block = block_at(file, big, p, n, i);
        if size < block.end {
            return false;
        }
    }
    true
}

// Whether block i of n shares no position with a later one.
fn clear_of(file: &[u8], big: bool, p: usize, n: usize, i: usize) -> bool
    requires { (n ≡ block_count big file.now p) × (i < n) × (blocks_end big file.now p ≤ length file.now) }
    ensures { result ≡
        clear_of (block_at big file.now p i) (blocks_from (block_at big file.now p) (i + 1) (n - (i + 1))) }
{
    let a = block_at(file, big, p, n, i);
    for j in i + 1..n {
        let b = block_at(file, big, p, n, j);
        let from = if a.start < b.start { b.start } else { a.start };
        let to = if a.end < b.end { a.end } else { b.end };
        if from < to {
            return false;
        }
    }
    true
}

// Whether no two of the n blocks share a position. From the last to the first: a block that ends before all later ones begin, or begins
// where all later ones have ended, needs no other look, so that rising blocks take one pass, and falling ones too.
pub(crate) fn all_apart(file: &[u8], big: bool, p: usize, n: usize) -> bool
    requires { (n ≡ block_count big file.now p) × (blocks_end big file.now p ≤ length file.now) }
    ensures { result ≡ apart (blocks_at big file.now p) }
{
    let mut right = true;
    let mut low: usize = 0x2_0000_0000;
    let mut high: usize = 0;
    for i in (0..n).rev() {
        let block = block_at(file, big, p, n, i);
        if block.start < block.end {
            if low < block.end {
                if block.start < high {
                    if right {
                        right = clear_of(file, big, p, n, i);
                    }
                }
            }
            if block.start < low {
                low = block.start;
            }
            if high < block.end {
                high = block.end;
            }
        }
    }
    right
}
