// Set flags counted, 64 at a time.
ghost use Rattle.std.specs.Prelude.{◌≡◌, ◌+◌, ◌/◌, ◌^◌, ◌≤◌, ◌<◌, length};
ghost use Rattle.codes.specs.Codes.{chars};
ghost use Rattle.fields.specs.Flags.{set_flags};

use crate::inner::loads::bits_at;

// Among the n flags from `at` on, where a word holds them.
fn set_in_word(bytes: &[u8], at: usize, n: usize) -> u64
    requires { (n ≤ 64) × (at / 8 + 9 ≤ length bytes.now) }
    ensures { result ≡ set_flags (chars 1 bytes.now at n) }
{
    u64::count_ones(bits_at(bytes, at, n)) as u64
}

// Among the n flags from `first` on.
pub fn set_flags(bytes: &[u8], first: usize, n: usize) -> u64
    requires { (first + n < 2 ^ 64) × ((first + n) / 8 + 9 ≤ length bytes.now) }
    ensures { result ≡ set_flags (chars 1 bytes.now first n) }
{
    let whole = n / 64;
    let mut sum: u64 = 0;
    for i in 0..whole {
        sum += set_in_word(bytes, first + 64 * i, 64);
    }
    sum + set_in_word(bytes, first + 64 * whole, n % 64)
}
