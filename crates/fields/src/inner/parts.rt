// One view: whether it is refused, its characters one at a time, and the numbers and the bytes of the parts that are handed back.
ghost use Rattle.std.specs.Prelude.{Ok, ◌≡◌, ◌+◌, ◌-◌, ◌%◌, length};
ghost use Rattle.codes.specs.Answers.{says};
ghost use Rattle.codes.specs.Codes.{per};
ghost use Rattle.codes.specs.Refusals.{answer, first, if_done, view_tests};
ghost use Rattle.fields.specs.Answers.{numbers_say};
ghost use Rattle.fields.specs.Fields.{slice_tests, got};
ghost use Rattle.fields.specs.Spans.{span_of, front, normal_part};

use codes::inner::checks::{bad_view, too_long};
use codes::inner::counts::{byte_of, within_byte};
use codes::inner::tracks::char_at;
use codes::refusals::Refusal;
use codes::units::{Chars, TRAILING};
use codes::widths::Width;

// The offset and the length of a part.
#[derive(Clone, Copy)]
pub struct Numbers {
    pub offset: Chars,
    pub len: Chars,
}

// Whether a view is refused, and why.
pub fn view_outcome<W: Width>(bytes: &[u8], offset: Chars, len: Chars) -> Result<(), Refusal>
    ensures { result ≡ first (view_tests W.BITS (length bytes.now) offset.0 len.0) }
{
    let n = bytes.len();
    if too_long(n) {
        return Err(Refusal::TooLong);
    }
    if bad_view::<W>(n, offset, len) {
        return Err(Refusal::BadView);
    }
    Ok(())
}

// Character i of a view.
pub fn get_at<W: Width>(bytes: &[u8], offset: Chars, len: Chars, i: Chars) -> Result<u8, Refusal>
    ensures { says result ≡ got W.BITS bytes.now offset.0 len.0 i.0 }
{
    view_outcome::<W>(bytes, offset, len)?;
    let at = i.count();
    if len.count() <= at {
        return Err(Refusal::BadRange);
    }
    Ok(char_at::<W>(bytes, offset.count() + at))
}

// The numbers of a view that is made.
pub fn made_numbers<W: Width>(bytes: &[u8], offset: Chars, len: Chars) -> Result<Numbers, Refusal>
    ensures { numbers_say result ≡ answer (first (view_tests W.BITS (length bytes.now) offset.0 len.0)) (offset.0, len.0) (0, 0) }
{
    view_outcome::<W>(bytes, offset, len)?;
    Ok(Numbers { offset, len })
}

// Whether a slice is refused, and why.
pub fn slice_outcome<W: Width>(
    bytes: &[u8],
    offset: Chars,
    len: Chars,
    start: Chars,
    end: Chars,
) -> Result<(), Refusal>
    ensures { result ≡ first (slice_tests W.BITS (length bytes.now) offset.0 len.0 start.0 end.0) }
{
    view_outcome::<W>(bytes, offset, len)?;
    if len.count() < end.count() {
        return Err(Refusal::BadRange);
    }
    if end.count() < start.count() {
        return Err(Refusal::BadRange);
    }
    Ok(())
}

// The numbers of a slice.
pub fn slice_numbers<W: Width>(
    bytes: &[u8],
    offset: Chars,
    len: Chars,
    start: Chars,
    end: Chars,
) -> Result<Numbers, Refusal>
    ensures { numbers_say result ≡
        answer (first (slice_tests W.BITS (length bytes.now) offset.0 len.0 start.0 end.0))
        (offset.0 + start.0, end.0 - start.0) (0, 0) }
{
    slice_outcome::<W>(bytes, offset, len, start, end)?;
    let from = start.count();
    Ok(Numbers {
        offset: Chars::new(offset.count() + from),
        len: Chars::new(end.count() - from),
    })
}

// The numbers of a normalised view.
pub fn normal_numbers<W: Width>(bytes: &[u8], offset: Chars, len: Chars) -> Result<Numbers, Refusal>
    ensures { numbers_say result ≡ answer (first (view_tests W.BITS (length bytes.now) offset.0 len.0)) (offset.0 % per W.BITS, len.0) (0, 0) }
{
    view_outcome::<W>(bytes, offset, len)?;
    Ok(Numbers {
        offset: within_byte::<W>(offset),
        len,
    })
}

// The bytes that an accepted view needs.
pub fn accepted_part<'a, W: Width>(bytes: &'a [u8], offset: Chars, len: Chars) -> &'a [u8]
    requires { first (view_tests W.BITS (length bytes.now) offset.0 len.0) ≡ Ok tt }
    ensures { span_of result ≡ normal_part W.BITS (span_of bytes.entry) offset.0 len.0 }
{
    let from = byte_of::<W>(offset).count();
    let used = Chars::new(offset.count() + len.count()).bytes_as::<W>();
    let to = used.count() + TRAILING;
    &bytes[from..to]
}

// The bytes of a normalised view, and none of them beside a refusal.
pub fn normal_part<'a, W: Width>(bytes: &'a [u8], offset: Chars, len: Chars) -> &'a [u8]
    ensures { span_of result ≡
        if_done (first (view_tests W.BITS (length bytes.now) offset.0 len.0))
        (normal_part W.BITS (span_of bytes.entry) offset.0 len.0) (front (span_of bytes.entry)) }
{
    match view_outcome::<W>(bytes, offset, len) {
        Err(_) => &bytes[0..0],
        Ok(()) => accepted_part::<W>(bytes, offset, len),
    }
}
