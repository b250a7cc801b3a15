// The strand of a record: its bases against their reverse complement.
ghost use Rattle.std.specs.Prelude.{◌≡◌, ◌≤◌};
ghost use Rattle.codes.specs.Codes.{chars};
ghost use Rattle.writes.specs.Writes.{flipped_over};
ghost use Rattle.rows.specs.Columns.{strand_of};

use codes::units::Chars;
use codes::widths::Bases;
use order::calls::compare;
use std::cmp::Ordering;
use writes::calls::to_revcomp;

// The bytes of a buffer for 16,384 bases.
pub const BASES: usize = 4144;

// `<`, `=` or `>`: the bases in a buffer against their reverse complement, which is left in `other`.
pub fn strand(bases: &[u8; BASES], count: usize, other: &mut [u8; BASES]) -> u8
    requires { count ≤ 16384 }
    ensures says { result ≡ strand_of (chars 2 bases.now 0 count) }
    ensures other { other.new ≡ flipped_over 2 bases.now 0 count other.old }
{
    let none = Chars::new(0);
    let len = Chars::new(count);
    to_revcomp::<Bases>(bases, none, len, other).unwrap();
    let compared = compare::<Bases>(bases, none, len, other, none, len).unwrap();
    match compared.order {
        Ordering::Less => b'<',
        Ordering::Equal => b'=',
        Ordering::Greater => b'>',
    }
}
