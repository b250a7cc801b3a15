// Letters and codes, one at a time: every byte has its answer.
ghost use Rattle.std.specs.Prelude.{[], ◌∷◌, ◌≡◌};
ghost use Rattle.codes.specs.Answers.{says};
ghost use Rattle.codes.specs.Codes.{strict, lossy, flag, letter, complement, complement_letter};
ghost use Rattle.codes.specs.Refusals.{answer, first, bad_letter, bad_capital, bad_code};

use crate::refusals::Refusal;

// The code of one of the letters ACGTUacgtu; U has that of T.
pub fn pack_char(byte: u8) -> Result<u8, Refusal>
    ensures { says result ≡ answer (first (bad_letter byte ∷ [])) (strict byte) 0 }
{
    match byte {
        b'A' | b'a' => Ok(0),
        b'C' | b'c' => Ok(1),
        b'T' | b't' => Ok(2),
        b'G' | b'g' => Ok(3),
        b'U' | b'u' => Ok(2),
        _ => Err(Refusal::BadLetter),
    }
}

// The code that packing gives any byte.
pub fn pack_char_lossy(byte: u8) -> u8
    ensures { result ≡ lossy byte }
{
    byte / 2 % 4
}

// 0 for the letters ACGTUacgtu, 1 for every other byte.
pub fn char_is_ambiguous(byte: u8) -> u8
    ensures { result ≡ flag byte }
{
    match byte {
        b'A' | b'C' | b'G' | b'T' | b'a' | b'c' | b'g' | b't' => 0,
        b'U' | b'u' => 0,
        _ => 1,
    }
}

// The capital letter of a code.
pub fn unpack_base(code: u8) -> Result<u8, Refusal>
    ensures { says result ≡ answer (first (bad_code code ∷ [])) (letter code) 0 }
{
    match code {
        0 => Ok(b'A'),
        1 => Ok(b'C'),
        2 => Ok(b'T'),
        3 => Ok(b'G'),
        _ => Err(Refusal::BadLetter),
    }
}

// The capital letter that pairs with a capital letter.
pub fn complement_char(byte: u8) -> Result<u8, Refusal>
    ensures { says result ≡ answer (first (bad_capital byte ∷ [])) (complement_letter byte) 0 }
{
    match byte {
        b'A' => Ok(b'T'),
        b'C' => Ok(b'G'),
        b'T' => Ok(b'A'),
        b'G' => Ok(b'C'),
        _ => Err(Refusal::BadLetter),
    }
}

// The code of the base that pairs with a base.
pub fn complement_base(code: u8) -> Result<u8, Refusal>
    ensures { says result ≡ answer (first (bad_code code ∷ [])) (complement 2 code) 0 }
{
    if 3 < code {
        return Err(Refusal::BadLetter);
    }
    Ok(code ^ 2)
}
