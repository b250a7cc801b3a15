// Writing and reading the stored form, edition 1: byte 1; n; the base bytes; the flag bytes; nothing more.
ghost use Rattle.std.specs.Prelude.{◌≡◌};
ghost use Rattle.forms.specs.Answers.{wrote_says, restored_says};
ghost use Rattle.forms.specs.Forms.{write_answer, write_after};
ghost use Rattle.forms.specs.Reading.{read_answer, bases_after, flags_after};

use crate::inner::reading::check;
use crate::inner::tracks::fill;
use crate::inner::writing::{form_size, write_form, write_outcome};
use codes::refusals::Refusal;
use codes::units::{Bytes, Chars};
use codes::widths::Bases;

// Writes the form of a view of bases and a view of flags.
pub fn write(
    bases: &[u8],
    base_offset: Chars,
    base_len: Chars,
    flags: &[u8],
    flag_offset: Chars,
    flag_len: Chars,
    out: &mut [u8],
) -> Result<Bytes, Refusal>
    ensures answer { wrote_says result ≡
        write_answer bases.now base_offset.0 base_len.0 flags.now flag_offset.0 flag_len.0 out.old }
    ensures bytes { out.new ≡
        write_after bases.now base_offset.0 base_len.0 flags.now flag_offset.0 flag_len.0 out.old }
{
    write_outcome(
        bases,
        base_offset,
        base_len,
        flags,
        flag_offset,
        flag_len,
        out.len(),
    )?;
    let a = base_offset.count();
    let b = flag_offset.count();
    write_form(bases, a, flags, b, base_len, out);
    Ok(form_size(base_len))
}

// Fills two buffers as stores of the form's length.
pub fn read(form: &[u8], bases: &mut [u8], flags: &mut [u8]) -> Result<Chars, Refusal>
    ensures answer { restored_says result ≡ read_answer form.now bases.old flags.old }
    ensures base_bytes { bases.new ≡ bases_after form.now bases.old flags.old }
    ensures flag_bytes { flags.new ≡ flags_after form.now bases.old flags.old }
{
    let checked = check(form, bases.len(), flags.len())?;
    let middle = checked.body + checked.len.bytes_as::<Bases>().count();
    fill(&form[checked.body..middle], bases);
    fill(&form[middle..], flags);
    Ok(checked.len)
}
