// Letters and codes, one at a time.
ghost use Rattle.std.specs.Prelude.{[], ◌∷◌, ◌≡◌};
ghost use Rattle.codes.specs.Codes.{strict, lossy, flag, letter, complement, complement_letter};
ghost use Rattle.codes.specs.Refusals.{answer, first, bad_letter, bad_capital, bad_code};
ghost use Rattle.given.specs.Face.{said};

use codes::letters::{char_is_ambiguous, pack_char_lossy};
use plain::inner::letters;

#[unsafe(no_mangle)]
pub extern "C" fn tsiv_pack_char(byte: u8, code: &mut u8) -> u32
    ensures { said result code.new ≡ answer (first (bad_letter byte ∷ [])) (strict byte) 0 }
{
    letters::pack_char(byte, code)
}

#[unsafe(no_mangle)]
pub extern "C" fn tsiv_pack_char_lossy(byte: u8) -> u8
    ensures { result ≡ lossy byte }
{
    pack_char_lossy(byte)
}

#[unsafe(no_mangle)]
pub extern "C" fn tsiv_char_is_ambiguous(byte: u8) -> u8
    ensures { result ≡ flag byte }
{
    char_is_ambiguous(byte)
}

#[unsafe(no_mangle)]
pub extern "C" fn tsiv_unpack_base(code: u8, byte: &mut u8) -> u32
    ensures { said result byte.new ≡ answer (first (bad_code code ∷ [])) (letter code) 0 }
{
    letters::unpack_base(code, byte)
}

#[unsafe(no_mangle)]
pub extern "C" fn tsiv_complement_char(byte: u8, pair: &mut u8) -> u32
    ensures { said result pair.new ≡ answer (first (bad_capital byte ∷ [])) (complement_letter byte) 0 }
{
    letters::complement_char(byte, pair)
}

#[unsafe(no_mangle)]
pub extern "C" fn tsiv_complement_base(code: u8, pair: &mut u8) -> u32
    ensures { said result pair.new ≡ answer (first (bad_code code ∷ [])) (complement 2 code) 0 }
{
    letters::complement_base(code, pair)
}
