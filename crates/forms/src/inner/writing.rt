// Writing a form: whether it can be written, how long it is, and its bytes.
ghost use Rattle.std.specs.Prelude.{Ok, ◌∷◌, ◌++◌, ◌≡◌, suc, ◌≤◌, ◌^◌, length, drop};
ghost use Rattle.codes.specs.Codes.{chars};
ghost use Rattle.codes.specs.Refusals.{first, view_tests};
ghost use Rattle.forms.specs.Forms.{form_size, stored, write_tests};
ghost use Rattle.forms.specs.Numbers.{spelt};

use crate::inner::MOST;
use crate::inner::numbers::{spell, spelt_size};
use crate::inner::tracks::write_track;
use codes::inner::checks::{bad_view, too_long};
use codes::refusals::Refusal;
use codes::units::{Bytes, Chars};
use codes::widths::{Bases, Flags};

// The bytes of a form.
pub(crate) fn form_size(len: Chars) -> Bytes
    requires { len.0 ≤ 2 ^ 29 }
    ensures { result.0 ≡ form_size len.0 }
{
    let head = 1 + spelt_size(len.count() as u64);
    Bytes::new(head + (len.bytes_as::<Bases>().count() + len.bytes_as::<Flags>().count()))
}

// The refusals of writing into so many bytes.
pub(crate) fn write_outcome(
    bases: &[u8],
    ao: Chars,
    al: Chars,
    flags: &[u8],
    bo: Chars,
    bl: Chars,
    room: usize,
) -> Result<(), Refusal>
    ensures { result ≡ first (write_tests (length bases.now) ao.0 al.0 (length flags.now) bo.0 bl.0 room) }
{
    let m = bases.len();
    let n = flags.len();
    if too_long(m) {
        return Err(Refusal::TooLong);
    }
    if too_long(n) {
        return Err(Refusal::TooLong);
    }
    if bad_view::<Bases>(m, ao, al) {
        return Err(Refusal::BadView);
    }
    if bad_view::<Flags>(n, bo, bl) {
        return Err(Refusal::BadView);
    }
    if al.count() != bl.count() {
        return Err(Refusal::BadRange);
    }
    if MOST < al.count() {
        return Err(Refusal::BadRange);
    }
    if room < form_size(al).count() {
        return Err(Refusal::NoRoom);
    }
    Ok(())
}

// Writes byte 1 and n.
fn write_head(n: u64, out: &mut [u8])
    requires { (n ≤ 2 ^ 29) × (suc (length (spelt 5 n)) ≤ length out.old) }
    ensures { out.new ≡ 1 ∷ (spelt 5 n ++ drop (suc (length (spelt 5 n))) out.old) }
{
    spell(n, &mut out[1..]);
    out[0] = 1;
}

// Writes the form of len bases and len flags.
pub(crate) fn write_form(
    bases: &[u8],
    ao: usize,
    flags: &[u8],
    bo: usize,
    len: Chars,
    out: &mut [u8],
)
    requires len_value { first (view_tests 2 (length bases.now) ao len.0) ≡ Ok tt }
    requires len_value_2 { first (view_tests 1 (length flags.now) bo len.0) ≡ Ok tt }
    requires len_bound { (len.0 ≤ 2 ^ 29) × (form_size len.0 ≤ length out.old) }
    ensures { out.new ≡
        stored (chars 2 bases.now ao len.0) (chars 1 flags.now bo len.0) ++ drop (form_size len.0) out.old }
{
    let n = len.count();
    let base_at = 1 + spelt_size(n as u64);
    let flag_at = base_at + len.bytes_as::<Bases>().count();
    write_head(n as u64, out);
    write_track::<Bases>(bases, ao, n, out, base_at);
    write_track::<Flags>(flags, bo, n, out, flag_at);
}
