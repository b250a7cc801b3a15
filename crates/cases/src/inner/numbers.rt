// The numbers of a line, as a call takes them. A word of 64 bits is given as two numbers, its high and its low 32 bits.
ghost use Rattle.std.specs.Prelude.{◌<◌};

use codes::units::Chars;

pub fn number(line: &[u64; 512], at: usize) -> usize
    requires { at < 512 }
{
    line[at] as usize
}

pub fn chars(line: &[u64; 512], at: usize) -> Chars
    requires { at < 512 }
{
    Chars::new(line[at] as usize)
}

pub(crate) fn word(line: &[u64; 512], at: usize) -> u64
    requires { at < 511 }
{
    line[at] % 0x1_0000_0000 * 0x1_0000_0000 + line[at + 1] % 0x1_0000_0000
}
