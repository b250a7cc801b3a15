// The header of a file: whether the file can be started, and its bytes.
ghost use Rattle.std.specs.Prelude.{false, ◌≡◌, ◌≤◌, length};
ghost use Rattle.std.proofs.lemmas.List.Edits.{sets};
ghost use Rattle.codes.specs.Refusals.{first};
ghost use Rattle.twobit.specs.Files.{header_size, header_of};
ghost use Rattle.twowrite.specs.Writing.{start_tests};

use crate::inner::numbers::put_number;
use codes::refusals::Refusal;
use twobit::inner::{HEADER, SIGNATURE};

// The refusals of a file of n sequences, whose names have m bytes together, in so many bytes.
pub(crate) fn start_outcome(k: usize, n: usize, m: usize, room: usize) -> Result<(), Refusal>
    requires { k ≤ 8 }
    ensures { result ≡ first (start_tests k n m room) }
{
    if 0xffff_ffff < n {
        return Err(Refusal::BadRange);
    }
    let fixed = HEADER + n * (k + 1);
    if room < fixed {
        return Err(Refusal::NoRoom);
    }
    if room - fixed < m {
        return Err(Refusal::NoRoom);
    }
    Ok(())
}

// Writes the header of a file of n sequences.
pub(crate) fn write_header(version: usize, n: usize, out: &mut [u8])
    requires { header_size ≤ length out.old }
    ensures { out.new ≡ sets out.old 0 (header_of false version n) }
{
    put_number(SIGNATURE, 4, out, 0);
    put_number(version, 4, out, 4);
    put_number(n, 4, out, 8);
    put_number(0, 4, out, 12);
}
