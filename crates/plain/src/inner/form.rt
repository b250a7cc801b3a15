// The stored form, edition 1.
ghost use Rattle.std.specs.Prelude.{◌≡◌};
ghost use Rattle.given.specs.Face.{said};
ghost use Rattle.forms.specs.Forms.{write_answer, write_after};
ghost use Rattle.forms.specs.Reading.{read_answer, bases_after, flags_after};

use codes::units::Chars;
use given::inner::give;

pub fn write(
    bases: &[u8],
    base_offset: usize,
    base_len: usize,
    flags: &[u8],
    flag_offset: usize,
    flag_len: usize,
    out: &mut [u8],
    written: &mut usize,
) -> u32
    ensures answer { said result written.new
        ≡ write_answer bases.now base_offset base_len flags.now flag_offset flag_len out.old }
    ensures bytes { out.new
        ≡ write_after bases.now base_offset base_len flags.now flag_offset flag_len out.old }
{
    give::wrote(
        forms::forms::write(
            bases,
            Chars::new(base_offset),
            Chars::new(base_len),
            flags,
            Chars::new(flag_offset),
            Chars::new(flag_len),
            out,
        ),
        written,
    )
}

pub fn read(form: &[u8], bases: &mut [u8], flags: &mut [u8], len: &mut usize) -> u32
    ensures answer { said result len.new ≡ read_answer form.now bases.old flags.old }
    ensures base_bytes { bases.new ≡ bases_after form.now bases.old flags.old }
    ensures flag_bytes { flags.new ≡ flags_after form.now bases.old flags.old }
{
    give::restored(forms::forms::read(form, bases, flags), len)
}
