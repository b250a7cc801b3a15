// The packed bases of a record as a store of bases: 32 bases a turn, then what is left.
ghost use Rattle.std.specs.Prelude.{◌≡◌, ◌+◌, ◌*◌, ◌^◌, ◌≤◌, length};
ghost use Rattle.codes.specs.Codes.{up, trailing, char_at};
ghost use Rattle.codes.specs.Words.{packed};
ghost use Rattle.forms.specs.Reading.{filled_with};
ghost use Rattle.dna.specs.Dna.{bases_at};

use crate::inner::numbers::number_at;
use crate::inner::words::{exchange, three_under};
use codes::inner::bits::low_bits;
use codes::inner::tracks::zero_run;
use codes::units::TRAILING;
use fields::inner::loads::{bits_at, load64, peek};
use fields::inner::writes::store64;
use forms::inner::tracks::put_bytes;

// Fills a buffer as a store of the n bases from byte d of a file on, with code 3 under each set flag.
pub fn read_dna(file: &[u8], d: usize, n: usize, flags: &[u8], bases: &mut [u8])
    requires n_in_bounds { d + up 2 n ≤ length file.now }
    requires trailing_in_bounds { (up 2 n + trailing ≤ length bases.old) × (up 1 n + trailing ≤ length flags.now) × (n ≤ 2 ^ 32) }
    ensures { bases.new ≡
        filled_with (packed 2 (bases_at file.now d n (char_at 1 flags.now))) bases.old }
{
    let whole = n / 32;
    for i in 0..whole {
        let x = load64(file, d + 8 * i);
        let f = peek(flags, 32 * i) % 0x1_0000_0000;
        store64(bases, 8 * i, three_under(exchange(x), f));
    }
    let at = 8 * whole;
    let left = n % 32;
    let k = (left + 3) / 4;
    let x = number_at(file, false, k, d + at) as u64;
    let f = bits_at(flags, 32 * whole, left);
    let y = three_under(exchange(x), f);
    put_bytes(low_bits(y, 2 * left), k, bases, at);
    zero_run(bases, at + k, at + k + TRAILING);
}
