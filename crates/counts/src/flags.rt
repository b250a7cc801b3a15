// Stores of flags with their counts: the calls on a store, with an entry for each block of 256 characters carried along, and the query. The
// entries are a second buffer that C lends: there is no heap for a list of blocks.
ghost use Rattle.std.specs.Prelude.{◌≡◌, length};
ghost use Rattle.stores.specs.Answers.{pushed_says, kept_says};
ghost use Rattle.stores.specs.Stores.{clear, push_ascii, push_seq, overwrite, cut};
ghost use Rattle.codes.specs.Answers.{says};
ghost use Rattle.counts.specs.Counts.{counted_answer, bytes_after, entries_after, queried};

use crate::inner::blocks::recount;
use crate::inner::ranges::{count_range, query_outcome, room_for};
use codes::refusals::Refusal;
use codes::units::Chars;
use codes::widths::Flags;
use stores::answers::{Pushed, Unchanged};
use stores::inner::outcomes::{end_outcome, letters_outcome, seq_outcome, seq_start};

// Makes a buffer an empty store; no entry is looked at or changed.
pub fn clear(buffer: &mut [u8], entries: &mut [u16]) -> Result<Chars, Unchanged>
    ensures says { kept_says result ≡ counted_answer (length buffer.old) 0 (length entries.old) clear }
    ensures bytes { buffer.new ≡ bytes_after buffer.old 0 (length entries.old) clear }
    ensures entries { entries.new ≡ entries_after buffer.old 0 entries.old clear }
{
    stores::calls::clear::<Flags>(buffer)
}

// Puts the flags of letters at the end of a store.
pub fn push_ascii(
    buffer: &mut [u8],
    len: Chars,
    entries: &mut [u16],
    letters: &[u8],
) -> Result<Pushed, Unchanged>
    ensures says { pushed_says result
        ≡ counted_answer (length buffer.old) len.0 (length entries.old) (push_ascii letters.now) }
    ensures bytes { buffer.new
        ≡ bytes_after buffer.old len.0 (length entries.old) (push_ascii letters.now) }
    ensures entries { entries.new
        ≡ entries_after buffer.old len.0 entries.old (push_ascii letters.now) }
{
    let outcome = letters_outcome::<Flags>(buffer.len(), len, letters.len());
    outcome.map_err(|refusal| Unchanged { refusal, len })?;
    let at = len.count();
    let end = at + letters.len();
    let room = room_for(entries.len(), end);
    room.map_err(|refusal| Unchanged { refusal, len })?;
    let pushed = stores::calls::push_ascii::<Flags>(buffer, len, letters);
    recount(buffer, end, entries, at, end);
    pushed
}

// Puts the view of `count` characters from `offset` on behind a store, in a byte of its own.
pub fn push_seq(
    buffer: &mut [u8],
    len: Chars,
    entries: &mut [u16],
    bytes: &[u8],
    offset: Chars,
    count: Chars,
) -> Result<Pushed, Unchanged>
    ensures says { pushed_says result
        ≡ counted_answer (length buffer.old) len.0 (length entries.old) (push_seq bytes.now offset.0 count.0) }
    ensures bytes { buffer.new
        ≡ bytes_after buffer.old len.0 (length entries.old) (push_seq bytes.now offset.0 count.0) }
    ensures entries { entries.new
        ≡ entries_after buffer.old len.0 entries.old (push_seq bytes.now offset.0 count.0) }
{
    let outcome = seq_outcome::<Flags>(buffer.len(), len, bytes.len(), offset, count);
    outcome.map_err(|refusal| Unchanged { refusal, len })?;
    let old = len.count();
    let start = seq_start::<Flags>(len, offset);
    let end = start + count.count();
    let room = room_for(entries.len(), end);
    room.map_err(|refusal| Unchanged { refusal, len })?;
    let pushed = stores::calls::push_seq::<Flags>(buffer, len, bytes, offset, count);
    recount(buffer, end, entries, old, end);
    pushed
}

// Puts the flags of letters over those from `start` on.
pub fn overwrite(
    buffer: &mut [u8],
    len: Chars,
    entries: &mut [u16],
    start: Chars,
    letters: &[u8],
) -> Result<Chars, Unchanged>
    ensures says { kept_says result
        ≡ counted_answer (length buffer.old) len.0 (length entries.old) (overwrite start.0 letters.now) }
    ensures bytes { buffer.new
        ≡ bytes_after buffer.old len.0 (length entries.old) (overwrite start.0 letters.now) }
    ensures entries { entries.new
        ≡ entries_after buffer.old len.0 entries.old (overwrite start.0 letters.now) }
{
    let outcome = end_outcome::<Flags>(buffer.len(), len, start, letters.len());
    outcome.map_err(|refusal| Unchanged { refusal, len })?;
    let n = len.count();
    let room = room_for(entries.len(), n);
    room.map_err(|refusal| Unchanged { refusal, len })?;
    let kept = stores::calls::overwrite::<Flags>(buffer, len, start, letters);
    let at = start.count();
    recount(buffer, n, entries, at, at + letters.len());
    kept
}

// Leaves a store's first m characters.
pub fn cut(buffer: &mut [u8], len: Chars, entries: &mut [u16], m: Chars) -> Result<Chars, Unchanged>
    ensures says { kept_says result ≡ counted_answer (length buffer.old) len.0 (length entries.old) (cut m.0) }
    ensures bytes { buffer.new ≡ bytes_after buffer.old len.0 (length entries.old) (cut m.0) }
    ensures entries { entries.new ≡ entries_after buffer.old len.0 entries.old (cut m.0) }
{
    let n = m.count();
    let outcome = end_outcome::<Flags>(buffer.len(), len, Chars::new(0), n);
    outcome.map_err(|refusal| Unchanged { refusal, len })?;
    let room = room_for(entries.len(), n);
    room.map_err(|refusal| Unchanged { refusal, len })?;
    let kept = stores::calls::cut::<Flags>(buffer, len, m);
    recount(buffer, n, entries, n, len.count());
    kept
}

// How many flags are set from character `start` up to character `end` of a store, by its entries.
pub fn count(
    buffer: &[u8],
    len: Chars,
    entries: &[u16],
    start: Chars,
    end: Chars,
) -> Result<u64, Refusal>
    ensures { says result ≡ queried buffer.now len.0 entries.now start.0 end.0 }
{
    query_outcome(buffer.len(), len, entries.len(), start, end)?;
    Ok(count_range(buffer, len.count(), entries, start.count(), end.count()))
}
