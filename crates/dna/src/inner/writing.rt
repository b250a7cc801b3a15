// The packed bases of a record: 32 bases a turn, then what is left, with T in the spare places.
ghost use Rattle.std.specs.Prelude.{Ok, ◌≡◌, ◌+◌, ◌≤◌, length};
ghost use Rattle.std.proofs.lemmas.List.Edits.{sets};
ghost use Rattle.codes.specs.Codes.{up, chars};
ghost use Rattle.codes.specs.Refusals.{first, view_tests};
ghost use Rattle.dna.specs.Dna.{dna};

use crate::inner::words::{exchange, t_under};
use fields::inner::loads::{bits_at, peek};
use fields::inner::writes::store64;
use forms::inner::tracks::put_bytes;

// Writes the packed bases of a view of bases and a view of flags at byte `at`.
pub fn write_dna(
    bases: &[u8],
    ao: usize,
    flags: &[u8],
    bo: usize,
    len: usize,
    out: &mut [u8],
    at: usize,
)
    requires len_value { first (view_tests 2 (length bases.now) ao len) ≡ Ok tt }
    requires len_value_2 { first (view_tests 1 (length flags.now) bo len) ≡ Ok tt }
    requires len_in_bounds { at + up 2 len ≤ length out.old }
    ensures { out.new ≡
        sets out.old at (dna (chars 2 bases.now ao len) (chars 1 flags.now bo len)) }
{
    let whole = len / 32;
    for i in 0..whole {
        let x = bits_at(bases, 2 * (ao + 32 * i), 64);
        let f = peek(flags, bo + 32 * i) % 0x1_0000_0000;
        store64(out, at + 8 * i, exchange(t_under(x, f)));
    }
    let done = 32 * whole;
    let left = len % 32;
    let x = bits_at(bases, 2 * (ao + done), 2 * left);
    let f = bits_at(flags, bo + done, left) | (0xffff_ffff >> left << left);
    put_bytes(exchange(t_under(x, f)), (left + 3) / 4, out, at + 8 * whole);
}
