// Letters and codes, one at a time.
ghost use Rattle.std.specs.Prelude.{[], ◌∷◌, ◌≡◌};
ghost use Rattle.codes.specs.Codes.{strict, letter, complement, complement_letter};
ghost use Rattle.codes.specs.Refusals.{answer, first, bad_letter, bad_capital, bad_code};
ghost use Rattle.given.specs.Face.{said};

use codes::letters;
use given::inner::give;

pub fn pack_char(byte: u8, code: &mut u8) -> u32
    ensures { said result code.new ≡ answer (first (bad_letter byte ∷ [])) (strict byte) 0 }
{
    give::number(letters::pack_char(byte), 0, code)
}

pub fn unpack_base(code: u8, byte: &mut u8) -> u32
    ensures { said result byte.new ≡ answer (first (bad_code code ∷ [])) (letter code) 0 }
{
    give::number(letters::unpack_base(code), 0, byte)
}

pub fn complement_char(byte: u8, pair: &mut u8) -> u32
    ensures { said result pair.new ≡ answer (first (bad_capital byte ∷ [])) (complement_letter byte) 0 }
{
    give::number(letters::complement_char(byte), 0, pair)
}

pub fn complement_base(code: u8, pair: &mut u8) -> u32
    ensures { said result pair.new ≡ answer (first (bad_code code ∷ [])) (complement 2 code) 0 }
{
    give::number(letters::complement_base(code), 0, pair)
}
