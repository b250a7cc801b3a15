// A view's characters in a buffer: its bytes copied, the first and the last joined with what stands beside them.
ghost use Rattle.std.specs.Prelude.{◌≡◌, ◌+◌, ◌-◌, ◌*◌, ◌/◌, ◌^◌, ◌≤◌, ◌<◌, length, get_or, replicate};
ghost use Rattle.codes.specs.Codes.{per, up, trailing, tab};
ghost use Rattle.codes.specs.Made.{Made};
ghost use Rattle.codes.specs.Words.{word};
ghost use Rattle.runs.specs.Bytes.{anew, Placed, placed_chars, placed_stop};
ghost use Rattle.runs.specs.Runs.{seq_chars, spliced, written, gap_char};

use crate::inner::edges::{join_above, join_below};
use codes::inner::counts::{byte_of, chars_in, within_byte};
use codes::inner::tracks::{copy, zero_run};
use codes::units::{Bytes, Chars, TRAILING};
use codes::widths::Width;
use fields::inner::loads::load64;
use fields::inner::writes::store64;

// Where a view goes: behind `len` characters, from character `start` on; `count` characters from its own `offset` on.
#[derive(Clone, Copy)]
pub struct Place {
    pub len: usize,
    pub start: usize,
    pub offset: usize,
    pub count: usize,
}

// A byte of gap characters. They are said of a run's edge alone, so not in `Width`: the test is known when this is compiled.
fn gap_byte<W: Width>() -> u8
    ensures { result ≡ word W.BITS (tab (per W.BITS) (λ k. gap_char W.BITS)) }
{
    if W::BITS == 1 { 0xff } else { 0 }
}

// The bytes from byte `from` up to byte `to`, taken over from byte `lead` of the view on, eight or more: by words, of which the last may overlap
// the one before.
fn copy_words(buffer: &mut [u8], from: usize, to: usize, view: &[u8], lead: usize)
    requires from_bound { (from + 8 ≤ to) × (to ≤ length buffer.old) }
    requires from_in_bounds { lead + (to - from) ≤ length view.now }
    ensures { Made (λ j. get_or view.now (lead + (j - from)) 0) from to buffer.old buffer.new }
{
    // By the number of words: of a loop with `step_by` the compiler makes no loop of vectors.
    for k in 0..(to - from - 1) / 8 {
        store64(buffer, from + 8 * k, load64(view, lead + 8 * k));
    }
    store64(buffer, to - 8, load64(view, lead + (to - 8 - from)));
}

// The same for any number of bytes.
fn copy_run(buffer: &mut [u8], from: usize, to: usize, view: &[u8], lead: usize)
    requires from_le_to { (from ≤ to) × (to ≤ length buffer.old) }
    requires from_in_bounds { lead + (to - from) ≤ length view.now }
    ensures { Made (λ j. get_or view.now (lead + (j - from)) 0) from to buffer.old buffer.new }
{
    if to - from < 8 {
        copy(&view[lead..lead + (to - from)], &mut buffer[from..to])
    } else {
        copy_words(buffer, from, to, view, lead)
    }
}

// The gap behind `len` characters, to the end of their last byte.
fn fill_gap<W: Width>(buffer: &mut [u8], len: usize)
    requires { up W.BITS len ≤ length buffer.old }
    ensures { Made (anew W.BITS buffer.old len (replicate (up W.BITS len * per W.BITS - len) (gap_char W.BITS)) (up W.BITS len * per W.BITS)) (len / per W.BITS) (up W.BITS len)
        buffer.old buffer.new }
{
    let k = within_byte::<W>(Chars::new(len)).count();
    if 0 < k {
        let b = byte_of::<W>(Chars::new(len)).count();
        join_above::<W>(buffer, b, k, gap_byte::<W>())
    }
}

// The view's bytes over those from byte `first` up to byte `last`: the gap below its first character, zeros behind its last.
fn fill_view<W: Width>(buffer: &mut [u8], first: usize, last: usize, p: Place, view: &[u8])
    requires placed { Placed W.BITS p.len p.start p.offset p.count (length view.now) }
    requires first_value { (first ≡ up W.BITS p.len) × (last ≡ up W.BITS (p.start + p.count)) × (first < last) }
    requires buffer_len_bound { (length buffer.old ≤ 2 ^ 28) × (last ≤ length buffer.old) }
    ensures { Made (anew W.BITS buffer.old p.len (placed_chars W.BITS p view.now) (placed_stop W.BITS p)) first last
        buffer.old buffer.new }
{
    let offset = Chars::new(p.offset);
    copy_run(buffer, first, last, view, byte_of::<W>(offset).count());
    let k = within_byte::<W>(offset).count();
    join_below::<W>(buffer, first, k, gap_byte::<W>());
    let rest = p.start + p.count - chars_in::<W>(Bytes::new(last - 1)).count();
    join_above::<W>(buffer, last - 1, rest, 0);
}

// The gap and the view's characters, then zeros to the end of the last byte.
fn fill_seq<W: Width>(buffer: &mut [u8], p: Place, view: &[u8])
    requires placed { Placed W.BITS p.len p.start p.offset p.count (length view.now) }
    requires buffer_len_bound { (length buffer.old ≤ 2 ^ 28) × (up W.BITS (p.start + p.count) ≤ length buffer.old) }
    ensures { buffer.new ≡ spliced W.BITS buffer.old p.len (placed_chars W.BITS p view.now) (placed_stop W.BITS p) }
{
    let first = Chars::new(p.len).bytes_as::<W>().count();
    let last = Chars::new(p.start + p.count).bytes_as::<W>().count();
    fill_gap::<W>(buffer, p.len);
    if first < last {
        fill_view::<W>(buffer, first, last, p, view)
    }
}

// The gap and the view's characters, then zeros to the end of the 48th byte behind.
pub fn write_seq<W: Width>(buffer: &mut [u8], p: Place, view: &[u8])
    requires placed { Placed W.BITS p.len p.start p.offset p.count (length view.now) }
    requires buffer_len_bound { (length buffer.old ≤ 2 ^ 28) × (up W.BITS (p.start + p.count) + trailing ≤ length buffer.old) }
    ensures { buffer.new ≡ written W.BITS buffer.old p.len (seq_chars W.BITS p.len view.now p.offset p.count) }
{
    let last = Chars::new(p.start + p.count).bytes_as::<W>().count();
    fill_seq::<W>(buffer, p, view);
    zero_run(buffer, last, last + TRAILING);
}
