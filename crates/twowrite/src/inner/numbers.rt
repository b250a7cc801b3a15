// Numbers of k bytes, the lowest byte first.
ghost use Rattle.std.specs.Prelude.{false, ◌≡◌, ◌+◌, ◌≤◌, length};
ghost use Rattle.std.proofs.lemmas.List.Edits.{sets};
ghost use Rattle.twobit.specs.Files.{spelled};

use forms::inner::tracks::put_bytes;

// Writes n at byte `at`.
pub(crate) fn put_number(n: usize, k: usize, out: &mut [u8], at: usize)
    requires { at + k ≤ length out.old }
    ensures { out.new ≡ sets out.old at (spelled false k n) }
{
    put_bytes(n as u64, k, out, at);
}
