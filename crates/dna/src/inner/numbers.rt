// Numbers of k bytes, in either byte order.
ghost use Rattle.std.specs.Prelude.{◌≡◌, ◌+◌, ◌≤◌, ◌<◌, length, get_or, take, drop};
ghost use Rattle.dna.specs.Numbers.{ordered, number_at};

// Byte j, counted from the lowest, of the number at byte `at`.
fn byte_of(file: &[u8], big: bool, k: usize, at: usize, j: usize) -> usize
    requires { (j < k) × (at + k ≤ length file.now) }
    ensures { result ≡ get_or (ordered big (take k (drop at file.now))) j 0 }
{
    if big {
        return file[at + (k - 1 - j)] as usize;
    }
    file[at + j] as usize
}

// The number at byte `at`: from its highest byte down to its lowest.
pub fn number_at(file: &[u8], big: bool, k: usize, at: usize) -> usize
    requires { (k ≤ 8) × (at + k ≤ length file.now) }
    ensures { result ≡ number_at big k file.now at }
{
    let mut value: usize = 0;
    for j in (0..k).rev() {
        value = value * 0x100 + byte_of(file, big, k, at, j);
    }
    value
}
