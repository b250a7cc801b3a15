// Writing a sequence: whether it can be added, its entry and its record.
ghost use Rattle.std.specs.Prelude.{Ok, false, ◌++◌, ◌≡◌, ◌+◌, ◌*◌, ◌≤◌, length};
ghost use Rattle.std.proofs.lemmas.List.Edits.{sets};
ghost use Rattle.codes.specs.Answers.{says};
ghost use Rattle.codes.specs.Codes.{chars};
ghost use Rattle.codes.specs.Refusals.{answer, first, view_tests};
ghost use Rattle.fields.specs.Runs.{runs};
ghost use Rattle.twobit.specs.Files.{entry_of, entry_size, record_of, record_size, each};
ghost use Rattle.twowrite.specs.Writing.{add_tests, bad_state, far_record};

use crate::answers::Writing;
use crate::inner::numbers::put_number;
use codes::inner::checks::{bad_view, too_long};
use codes::inner::tracks::copy;
use codes::refusals::Refusal;
use codes::units::Chars;
use codes::widths::{Bases, Flags};
use dna::inner::writing::write_dna;
use fields::inner::runs::{count_runs, run_end};

// Writes the starts of the runs, then their sizes.
fn write_runs(flags: &[u8], bo: usize, len: usize, count: usize, out: &mut [u8], at: usize)
    requires len_value { first (view_tests 1 (length flags.now) bo len) ≡ Ok tt }
    requires count_value { (count ≡ length (runs (chars 1 flags.now bo len))) × (at + 8 * count ≤ length out.old) }
    ensures { out.new ≡
        sets out.old at
        (each false (λ r. r.start) (runs (chars 1 flags.now bo len)) ++ each false (λ r. r.size) (runs (chars 1 flags.now bo len))) }
{
    let sizes = at + 4 * count;
    let end = bo + len;
    let mut p = bo;
    for i in 0..count {
        let start = run_end(flags, p, end, false);
        let stop = run_end(flags, start, end, true);
        put_number(start - bo, 4, out, at + 4 * i);
        put_number(stop - start, 4, out, sizes + 4 * i);
        p = stop;
    }
}

// Writes the record of a view of bases and a view of flags with so many runs.
pub(crate) fn write_record(
    bases: &[u8],
    ao: usize,
    flags: &[u8],
    bo: usize,
    len: usize,
    count: usize,
    out: &mut [u8],
    at: usize,
)
    requires len_value { first (view_tests 2 (length bases.now) ao len) ≡ Ok tt }
    requires len_value_2 { first (view_tests 1 (length flags.now) bo len) ≡ Ok tt }
    requires count_value { (count ≡ length (runs (chars 1 flags.now bo len))) × (at + record_size (chars 1 flags.now bo len) ≤ length out.old) }
    ensures { out.new ≡
        sets out.old at (record_of false (chars 2 bases.now ao len) (chars 1 flags.now bo len)) }
{
    let starts = at + 8;
    let masks = starts + 8 * count;
    put_number(len, 4, out, at);
    put_number(count, 4, out, at + 4);
    write_runs(flags, bo, len, count, out, starts);
    put_number(0, 4, out, masks);
    put_number(0, 4, out, masks + 4);
    write_dna(bases, ao, flags, bo, len, out, masks + 8);
}

// Writes a name at byte `at`.
fn write_name(name: &[u8], out: &mut [u8], at: usize)
    requires { at + length name.now ≤ length out.old }
    ensures { out.new ≡ sets out.old at name.now }
{
    copy(name, &mut out[at..]);
}

// Writes the entry of a name and of the record at byte `place`.
pub(crate) fn write_entry(name: &[u8], k: usize, place: usize, out: &mut [u8], at: usize)
    requires { (length name.now ≤ 255) × (at + entry_size k (length name.now) ≤ length out.old) }
    ensures { out.new ≡ sets out.old at (entry_of false k name.now place) }
{
    let n = name.len();
    out[at] = n as u8;
    write_name(name, out, at + 1);
    put_number(place, k, out, at + 1 + n);
}

// Whether an offset takes more than k bytes.
fn far_record(k: usize, at: usize) -> bool
    requires { k ≤ 8 }
    ensures { result ≡ (far_record k at).0 }
{
    if k < 8 { 0 < at >> (8 * k) } else { false }
}

// Whether none is left, the entry of a name of n bytes does not fit into the index, or the index does not end before the record.
fn bad_state(k: usize, state: Writing, n: usize) -> bool
    requires { (k ≤ 8) × (n ≤ 255) }
    ensures { result ≡ (bad_state k state n).0 }
{
    if state.left == 0 {
        return true;
    }
    if state.stop < state.entry {
        return true;
    }
    if state.stop - state.entry < n + k + 1 {
        return true;
    }
    state.place < state.stop
}

// How many runs the flags of a sequence that can be added have.
pub(crate) fn add_ready(
    k: usize,
    state: Writing,
    name: usize,
    bases: &[u8],
    ao: Chars,
    al: Chars,
    flags: &[u8],
    bo: Chars,
    bl: Chars,
    room: usize,
) -> Result<usize, Refusal>
    requires { k ≤ 8 }
    ensures { says result ≡
        answer (first (add_tests k state name (length bases.now) ao.0 al.0 flags.now bo.0 bl.0 room))
        (length (runs (chars 1 flags.now bo.0 bl.0))) 0 }
{
    let m = bases.len();
    let n = flags.len();
    if too_long(m) {
        return Err(Refusal::TooLong);
    }
    if too_long(n) {
        return Err(Refusal::TooLong);
    }
    if bad_view::<Bases>(m, ao, al) {
        return Err(Refusal::BadView);
    }
    if bad_view::<Flags>(n, bo, bl) {
        return Err(Refusal::BadView);
    }
    if al.count() != bl.count() {
        return Err(Refusal::BadRange);
    }
    if 255 < name {
        return Err(Refusal::BadRange);
    }
    if bad_state(k, state, name) {
        return Err(Refusal::BadRange);
    }
    if far_record(k, state.place) {
        return Err(Refusal::BadRange);
    }
    let count = count_runs(flags, bo.count(), bl.count());
    let size = 16 + 8 * count + al.bytes_as::<Bases>().count();
    if room < state.place {
        return Err(Refusal::NoRoom);
    }
    if room - state.place < size {
        return Err(Refusal::NoRoom);
    }
    Ok(count)
}
