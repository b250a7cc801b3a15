// Blocks of 256 characters, and their entries counted afresh.
ghost use Rattle.std.specs.Prelude.{◌≡◌, ◌+◌, ◌*◌, ◌^◌, ◌≤◌, ◌<◌, length};
ghost use Rattle.codes.specs.Codes.{chars, up, trailing};
ghost use Rattle.codes.specs.Made.{Made};
ghost use Rattle.fields.specs.Flags.{set_flags};
ghost use Rattle.counts.specs.Blocks.{size, blocks, block, recounted};

use codes::inner::bits::smaller;
use fields::inner::flags::set_flags;

// The characters of a block.
pub(crate) const SIZE: usize = 256;

// The blocks of n characters.
pub fn blocks_of(n: usize) -> usize
    ensures { result ≡ blocks n }
{
    n / SIZE + (n % SIZE + (SIZE - 1)) / SIZE
}

// The set flags of block b of a track of len characters.
fn count_block(track: &[u8], len: usize, b: usize) -> u16
    requires { (length track.now ≤ 2 ^ 28) × (up 1 len + trailing ≤ length track.now) × (b * size < len) }
    ensures { result ≡ set_flags (block (chars 1 track.now 0 len) b) }
{
    let first = b * SIZE;
    set_flags(track, first, smaller(SIZE, len - first)) as u16
}

// Counts afresh the blocks from block `from` up to block `to`.
fn count_run(track: &[u8], len: usize, entries: &mut [u16], from: usize, to: usize)
    requires track_len_bound { (length track.now ≤ 2 ^ 28) × (up 1 len + trailing ≤ length track.now) }
    requires from_le_to { (from ≤ to) × (to ≤ blocks len) × (to ≤ length entries.old) }
    ensures { Made (λ b. set_flags (block (chars 1 track.now 0 len) b)) from to entries.old entries.new }
{
    for b in from..to {
        entries[b] = count_block(track, len, b);
    }
}

// Counts afresh the blocks of a track of len characters that have one from character `start` up to character `end`.
pub(crate) fn recount(track: &[u8], len: usize, entries: &mut [u16], start: usize, end: usize)
    requires track_len_bound { (length track.now ≤ 2 ^ 28) × (up 1 len + trailing ≤ length track.now) }
    requires len_in_bounds { (blocks len ≤ length entries.old) × (start ≤ len) }
    ensures { entries.new ≡ recounted entries.old (start, end) (chars 1 track.now 0 len) }
{
    if start < end {
        let to = smaller(blocks_of(end), blocks_of(len));
        count_run(track, len, entries, start / SIZE, to);
    }
}
