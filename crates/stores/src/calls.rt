// Calls on a store: a lent buffer and a length in characters, of bases or of flags. The two stand side by side, as C lends them and as no heap
// holds them; of a struct with the buffer in it the checker would read no contract for `Called` and `History` to speak of.
ghost use Rattle.std.specs.Prelude.{◌≡◌, length};
ghost use Rattle.stores.specs.Answers.{pushed_says, kept_says};
ghost use Rattle.stores.specs.Stores.{answered, after, clear, push_ascii, push_seq, overwrite, cut};

use crate::answers::{Pushed, Unchanged};
use crate::inner::outcomes::{clear_outcome, end_outcome, letters_outcome, seq_outcome, seq_start};
use codes::units::Chars;
use codes::widths::Width;
use runs::inner::seqs::{Place, write_seq};
use runs::inner::writes::{fill_letters, write_end, write_letters};

// Makes a buffer an empty store.
pub fn clear<W: Width>(buffer: &mut [u8]) -> Result<Chars, Unchanged>
    ensures says { kept_says result ≡ answered W.BITS (length buffer.old) 0 clear }
    ensures bytes { buffer.new ≡ after W.BITS buffer.old 0 clear }
{
    let none = Chars::new(0);
    clear_outcome(buffer.len()).map_err(|refusal| Unchanged { refusal, len: none })?;
    write_letters::<W>(buffer, 0, b"");
    Ok(none)
}

// Puts the codes of letters at the end of a store.
pub fn push_ascii<W: Width>(
    buffer: &mut [u8],
    len: Chars,
    letters: &[u8],
) -> Result<Pushed, Unchanged>
    ensures says { pushed_says result ≡ answered W.BITS (length buffer.old) len.0 (push_ascii letters.now) }
    ensures bytes { buffer.new ≡ after W.BITS buffer.old len.0 (push_ascii letters.now) }
{
    let count = letters.len();
    letters_outcome::<W>(buffer.len(), len, count).map_err(|refusal| Unchanged { refusal, len })?;
    if count == 0 {
        return Ok(Pushed {
            start: len,
            end: len,
        });
    }
    let at = len.count();
    write_letters::<W>(buffer, at, letters);
    Ok(Pushed {
        start: len,
        end: Chars::new(at + count),
    })
}

// Puts the view of `count` characters from `offset` on behind a store, in a byte of its own.
pub fn push_seq<W: Width>(
    buffer: &mut [u8],
    len: Chars,
    bytes: &[u8],
    offset: Chars,
    count: Chars,
) -> Result<Pushed, Unchanged>
    ensures says { pushed_says result ≡ answered W.BITS (length buffer.old) len.0 (push_seq bytes.now offset.0 count.0) }
    ensures bytes { buffer.new ≡ after W.BITS buffer.old len.0 (push_seq bytes.now offset.0 count.0) }
{
    let outcome = seq_outcome::<W>(buffer.len(), len, bytes.len(), offset, count);
    outcome.map_err(|refusal| Unchanged { refusal, len })?;
    let place = Place {
        len: len.count(),
        start: seq_start::<W>(len, offset),
        offset: offset.count(),
        count: count.count(),
    };
    write_seq::<W>(buffer, place, bytes);
    Ok(Pushed {
        start: Chars::new(place.start),
        end: Chars::new(place.start + place.count),
    })
}

// Puts the codes of letters over those from `start` on.
pub fn overwrite<W: Width>(
    buffer: &mut [u8],
    len: Chars,
    start: Chars,
    letters: &[u8],
) -> Result<Chars, Unchanged>
    ensures says { kept_says result ≡ answered W.BITS (length buffer.old) len.0 (overwrite start.0 letters.now) }
    ensures bytes { buffer.new ≡ after W.BITS buffer.old len.0 (overwrite start.0 letters.now) }
{
    let count = letters.len();
    end_outcome::<W>(buffer.len(), len, start, count).map_err(|refusal| Unchanged {
        refusal,
        len,
    })?;
    let at = start.count();
    fill_letters::<W>(buffer, at, letters, at + count);
    Ok(len)
}

// Leaves a store's first m characters.
pub fn cut<W: Width>(buffer: &mut [u8], len: Chars, m: Chars) -> Result<Chars, Unchanged>
    ensures says { kept_says result ≡ answered W.BITS (length buffer.old) len.0 (cut m.0) }
    ensures bytes { buffer.new ≡ after W.BITS buffer.old len.0 (cut m.0) }
{
    let none = Chars::new(0);
    let at = m.count();
    end_outcome::<W>(buffer.len(), len, none, at).map_err(|refusal| Unchanged { refusal, len })?;
    write_end::<W>(buffer, at);
    Ok(m)
}
