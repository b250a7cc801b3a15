// Reading a form: whether bytes are one that can be read, and what it holds.
ghost use Rattle.std.specs.Prelude.{◌≡◌, ◌≤◌, ◌<◌, ◌^◌, None};
ghost use Rattle.codes.specs.Codes.{pick};
ghost use Rattle.codes.specs.Refusals.{answer, first};
ghost use Rattle.forms.specs.Answers.{spelled_says, checked_says};
ghost use Rattle.forms.specs.Reading.{head_of, body_of, is_form, right_tracks, form_length, form_tests, read_tests};

use crate::inner::MOST;
use crate::inner::numbers::{Spelled, read_number};
use crate::inner::tracks::spare_clear;
use codes::inner::checks::{bad_store, too_long};
use codes::refusals::Refusal;
use codes::units::Chars;
use codes::widths::{Bases, Flags};

// The length of a form that can be read, and where its base bytes begin.
#[derive(Clone, Copy)]
pub struct Checked {
    pub len: Chars,
    pub body: usize,
}

// Byte 1, and n.
fn head(form: &[u8]) -> Option<Spelled>
    ensures { spelled_says result ≡ head_of form.now }
{
    if form.len() == 0 {
        return None;
    }
    if form[0] != 1 {
        return None;
    }
    read_number(&form[1..])
}

// Whether the tracks of n characters from byte `body` on are the rest of the form, with no spare bit set.
fn right_tracks(form: &[u8], n: usize, body: usize) -> bool
    requires { (n ≤ 2 ^ 29) × (body ≤ 6) }
    ensures { result ≡ right_tracks form.now n body }
{
    let middle = body + Chars::new(n).bytes_as::<Bases>().count();
    let end = middle + Chars::new(n).bytes_as::<Flags>().count();
    if form.len() != end {
        return false;
    }
    if !spare_clear::<Bases>(n, &form[body..middle]) {
        return false;
    }
    spare_clear::<Flags>(n, &form[middle..])
}

// The head of bytes that keep the rules of a form.
fn check_form(form: &[u8]) -> Option<Spelled>
    ensures { spelled_says result ≡ pick (is_form form.now) (head_of form.now) None }
{
    let read = head(form)?;
    let n = read.value as usize;
    if MOST < n {
        return None;
    }
    if !right_tracks(form, n, read.size + 1) {
        return None;
    }
    Some(read)
}

// Whether bytes are a form with room for it.
fn judge(form: &[u8], base_room: usize, flag_room: usize) -> Result<Checked, Refusal>
    ensures { checked_says result ≡
        answer (first (form_tests form.now base_room flag_room))
        (form_length form.now, body_of (head_of form.now)) (0, 0) }
{
    let Some(read) = check_form(form) else {
        return Err(Refusal::BadForm);
    };
    let len = Chars::new(read.value as usize);
    if bad_store::<Bases>(base_room, len) {
        return Err(Refusal::NoRoom);
    }
    if bad_store::<Flags>(flag_room, len) {
        return Err(Refusal::NoRoom);
    }
    Ok(Checked {
        len,
        body: read.size + 1,
    })
}

// Whether a form can be read into buffers of so many bytes.
pub(crate) fn check(form: &[u8], base_room: usize, flag_room: usize) -> Result<Checked, Refusal>
    ensures { checked_says result ≡
        answer (first (read_tests form.now base_room flag_room))
        (form_length form.now, body_of (head_of form.now)) (0, 0) }
{
    if too_long(form.len()) {
        return Err(Refusal::TooLong);
    }
    if too_long(base_room) {
        return Err(Refusal::TooLong);
    }
    if too_long(flag_room) {
        return Err(Refusal::TooLong);
    }
    judge(form, base_room, flag_room)
}
