// The set flags of a range: the entries of the whole blocks in it, and its ends counted.
ghost use Rattle.std.specs.Prelude.{[], ◌∷◌, ◌≡◌, ◌+◌, ◌-◌, ◌*◌, ◌^◌, ◌≤◌, max, length};
ghost use Rattle.std.proofs.Math.Seq.{slice};
ghost use Rattle.codes.specs.Codes.{chars, up, trailing};
ghost use Rattle.codes.specs.Refusals.{first};
ghost use Rattle.fields.specs.Flags.{sum};
ghost use Rattle.counts.specs.Blocks.{blocks, range_count};
ghost use Rattle.counts.specs.Counts.{too_few, query_tests};

use crate::inner::blocks::{SIZE, blocks_of};
use codes::inner::bits::smaller;
use codes::refusals::Refusal;
use codes::units::Chars;
use codes::widths::Flags;
use fields::inner::flags::set_flags;
use stores::inner::outcomes::end_outcome;

// Whether there is an entry for each block of n characters.
pub(crate) fn room_for(entries: usize, n: usize) -> Result<(), Refusal>
    ensures { result ≡ first (too_few entries n ∷ []) }
{
    if entries < blocks_of(n) {
        return Err(Refusal::NoRoom);
    }
    Ok(())
}

// Whether a query is refused, and why.
pub(crate) fn query_outcome(
    size: usize,
    len: Chars,
    entries: usize,
    start: Chars,
    end: Chars,
) -> Result<(), Refusal>
    ensures { result ≡ first (query_tests size len.0 entries start.0 end.0) }
{
    end_outcome::<Flags>(size, len, Chars::new(0), end.count())?;
    if end.count() < start.count() {
        return Err(Refusal::BadRange);
    }
    room_for(entries, len.count())
}

fn larger(m: usize, n: usize) -> usize
    ensures { result ≡ max m n }
{
    if m < n { n } else { m }
}

// The entries whose sum fits 32 bits, whatever they are.
const MANY: usize = 0x1_0000;

// The sum of the entries from entry `from` up to entry `to`, at most so many.
fn sum_many(entries: &[u16], from: usize, to: usize) -> u32
    requires { (from ≤ to) × (to ≤ length entries.now) × (to ≤ from + 2 ^ 16) }
    ensures { (result ≡ sum (slice from to entries.now)) × (result ≤ 0xffff * (to - from)) }
{
    entries[from..to]
        .iter()
        .map(|entry| u32::from(*entry))
        .sum()
}

// The sum of the entries from entry `from` up to entry `to`.
fn sum_run(entries: &[u16], from: usize, to: usize) -> u64
    requires { (from ≤ to) × (to ≤ length entries.now) × (to ≤ 2 ^ 32) }
    ensures { (result ≡ sum (slice from to entries.now)) × (result ≤ 0xffff * (to - from)) }
{
    let mut total: u64 = 0;
    for b in (from..to).step_by(MANY) {
        total += sum_many(entries, b, smaller(to, b + MANY)) as u64;
    }
    total
}

// The set flags from character `start` up to character `end` of a track of len characters.
pub(crate) fn count_range(
    track: &[u8],
    len: usize,
    entries: &[u16],
    start: usize,
    end: usize,
) -> u64
    requires track_len_bound { (length track.now ≤ 2 ^ 28) × (up 1 len + trailing ≤ length track.now) }
    requires start_le_end { (start ≤ end) × (end ≤ len) × (blocks len ≤ length entries.now) }
    ensures { result ≡ range_count entries.now (chars 1 track.now 0 len) start end }
{
    let from = blocks_of(start);
    let to = larger(from, end / SIZE);
    let head = set_flags(track, start, smaller(end, from * SIZE) - start);
    let behind = to * SIZE;
    let tail = set_flags(track, behind, larger(end, behind) - behind);
    head + (sum_run(entries, from, to) + tail)
}
