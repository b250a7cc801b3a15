// New letters in a buffer: by four or eight letters, the bytes at both ends joined with what stands there; a few character by character.
ghost use Rattle.std.specs.Prelude.{[], map, ◌≡◌, ◌+◌, ◌-◌, ◌*◌, ◌/◌, ◌^◌, ◌≤◌, length};
ghost use Rattle.codes.specs.Codes.{per, up, trailing, code};
ghost use Rattle.codes.specs.Made.{Made};
ghost use Rattle.runs.specs.Bytes.{anew, letters_word};
ghost use Rattle.runs.specs.Runs.{spliced, written};

use crate::inner::edges::{edge_run, first_letters, join_above, join_below, last_letters};
use crate::inner::whole::{bases_run, flags_run};
use codes::inner::counts::{byte_of, chars_in, within_byte};
use codes::inner::tracks::zero_run;
use codes::units::{Bytes, Chars, TRAILING};
use codes::widths::Width;

// The bytes from byte `from` up to byte `to`, which hold new letters alone.
fn whole_run<W: Width>(buffer: &mut [u8], from: usize, to: usize, at: usize, letters: &[u8])
    requires width_bound { W.BITS ≤ 2 }
    requires from_le_to { (from ≤ to) × (to ≤ length buffer.old) × (length buffer.old ≤ 2 ^ 28) }
    requires at_bound { (at ≤ from * per W.BITS) × (to * per W.BITS ≤ at + length letters.now) }
    ensures { Made (λ j. letters_word W.BITS (per W.BITS) letters.now (from * per W.BITS - at + (j - from) * per W.BITS)) from to
        buffer.old buffer.new }
{
    // Known when this is compiled; a trait of its own over `Width` would be one bound more on each function above.
    if W::BITS == 2 {
        bases_run(buffer, from, to, letters, from * 4 - at)
    } else {
        flags_run(buffer, from, to, letters, from * 8 - at)
    }
}

// What `fill_letters` says, character by character.
fn fill_few<W: Width>(buffer: &mut [u8], at: usize, letters: &[u8], stop: usize)
    requires buffer_len_bound { length buffer.old ≤ 2 ^ 28 }
    requires letters_in_bounds { up W.BITS (at + length letters.now) ≤ length buffer.old }
    requires letters_bound { (at + length letters.now ≤ stop) × (stop ≤ up W.BITS (at + length letters.now) * per W.BITS) }
    ensures { buffer.new ≡ spliced W.BITS buffer.old at (map (code W.BITS) letters.now) stop }
{
    let first = byte_of::<W>(Chars::new(at)).count();
    let last = Chars::new(at + letters.len()).bytes_as::<W>().count();
    edge_run::<W>(buffer, first, last, at, letters, stop)
}

// The same for eight letters or more, of bases or flags.
fn fill_many<W: Width>(buffer: &mut [u8], at: usize, letters: &[u8], stop: usize)
    requires width_bound { W.BITS ≤ 2 }
    requires letters_len_bound { 8 ≤ length letters.now }
    requires buffer_len_bound { length buffer.old ≤ 2 ^ 28 }
    requires letters_in_bounds { up W.BITS (at + length letters.now) ≤ length buffer.old }
    requires letters_bound { (at + length letters.now ≤ stop) × (stop ≤ up W.BITS (at + length letters.now) * per W.BITS) }
    ensures { buffer.new ≡ spliced W.BITS buffer.old at (map (code W.BITS) letters.now) stop }
{
    let start = Chars::new(at);
    let end = Chars::new(at + letters.len());
    let b = byte_of::<W>(start).count();
    let k = within_byte::<W>(start).count();
    let to = byte_of::<W>(end).count();
    let r = within_byte::<W>(end).count();
    join_above::<W>(buffer, b, k, first_letters::<W>(letters, k));
    whole_run::<W>(buffer, b + 1, to, at, letters);
    if 0 < r {
        let rest = stop - chars_in::<W>(Bytes::new(to)).count();
        join_below::<W>(buffer, to, rest, last_letters::<W>(letters, r))
    }
}

// The letters' codes at `at`, then zeros up to `stop`, which stands in the byte of the last letter or at its end.
pub fn fill_letters<W: Width>(buffer: &mut [u8], at: usize, letters: &[u8], stop: usize)
    requires buffer_len_bound { length buffer.old ≤ 2 ^ 28 }
    requires letters_in_bounds { up W.BITS (at + length letters.now) ≤ length buffer.old }
    requires letters_bound { (at + length letters.now ≤ stop) × (stop ≤ up W.BITS (at + length letters.now) * per W.BITS) }
    ensures { buffer.new ≡ spliced W.BITS buffer.old at (map (code W.BITS) letters.now) stop }
{
    if letters.len() < 8 {
        fill_few::<W>(buffer, at, letters, stop)
    } else if 2 < W::BITS {
        fill_few::<W>(buffer, at, letters, stop)
    } else {
        fill_many::<W>(buffer, at, letters, stop)
    }
}

// The letters' codes at `at`, then zeros to the end of the 48th byte behind.
pub fn write_letters<W: Width>(buffer: &mut [u8], at: usize, letters: &[u8])
    requires buffer_len_bound { length buffer.old ≤ 2 ^ 28 }
    requires trailing_in_bounds { up W.BITS (at + length letters.now) + trailing ≤ length buffer.old }
    ensures { buffer.new ≡ written W.BITS buffer.old at (map (code W.BITS) letters.now) }
{
    let end = at + letters.len();
    let used = Chars::new(end).bytes_as::<W>();
    let last = used.count();
    let stop = chars_in::<W>(used).count();
    fill_letters::<W>(buffer, at, letters, stop);
    zero_run(buffer, last, last + TRAILING);
}

// Zeros from character `at` to the end of its byte.
fn clear_rest<W: Width>(buffer: &mut [u8], at: usize)
    requires { up W.BITS at ≤ length buffer.old }
    ensures { Made (anew W.BITS buffer.old at [] (up W.BITS at * per W.BITS)) (at / per W.BITS) (up W.BITS at)
        buffer.old buffer.new }
{
    let k = within_byte::<W>(Chars::new(at)).count();
    if 0 < k {
        let b = byte_of::<W>(Chars::new(at)).count();
        join_above::<W>(buffer, b, k, 0)
    }
}

// What `write_letters` says of no letters: zeros from character `at` to the end of the 48th byte behind. The byte of `at` is joined with zeros, and
// not made character by character.
pub fn write_end<W: Width>(buffer: &mut [u8], at: usize)
    requires buffer_len_bound { length buffer.old ≤ 2 ^ 28 }
    requires trailing_in_bounds { up W.BITS at + trailing ≤ length buffer.old }
    ensures { buffer.new ≡ written W.BITS buffer.old at [] }
{
    let from = Chars::new(at).bytes_as::<W>().count();
    clear_rest::<W>(buffer, at);
    zero_run(buffer, from, from + TRAILING);
}
