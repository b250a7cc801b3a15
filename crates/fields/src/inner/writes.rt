// The bytes of a word, written: a ladder as in `loads`, of which the compiler makes one store.
ghost use Rattle.std.specs.Prelude.{◌≡◌, ◌+◌, ◌≤◌, length};
ghost use Rattle.std.proofs.lemmas.List.Edits.{sets};
ghost use Rattle.codes.specs.Words.{chars_of};

fn store8(out: &mut [u8], at: usize, x: u64)
    requires { at + 1 ≤ length out.old }
    ensures { out.new ≡ sets out.old at (chars_of 8 1 x) }
{
    out[at] = (x % 0x100) as u8;
}

fn store16(out: &mut [u8], at: usize, x: u64)
    requires { at + 2 ≤ length out.old }
    ensures { out.new ≡ sets out.old at (chars_of 8 2 x) }
{
    store8(out, at, x);
    store8(out, at + 1, x >> 8);
}

fn store32(out: &mut [u8], at: usize, x: u64)
    requires { at + 4 ≤ length out.old }
    ensures { out.new ≡ sets out.old at (chars_of 8 4 x) }
{
    store16(out, at, x);
    store16(out, at + 2, x >> 16);
}

// The eight bytes of x from `at` on, the lowest first.
pub fn store64(out: &mut [u8], at: usize, x: u64)
    requires { at + 8 ≤ length out.old }
    ensures { out.new ≡ sets out.old at (chars_of 8 8 x) }
{
    store32(out, at, x);
    store32(out, at + 4, x >> 32);
}
