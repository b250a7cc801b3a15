// Machine words: widened, shifted, masked, and the lesser of two.
ghost use Rattle.std.specs.Prelude.{◌≡◌, ◌+◌, ◌*◌, ◌/◌, ◌%◌, ◌^◌, ◌≤◌, ◌<◌, min};

pub fn wide(x: u8) -> u64
    ensures { result ≡ x }
{
    x as u64
}

pub fn smaller(m: usize, n: usize) -> usize
    ensures { result ≡ min m n }
{
    if m < n { m } else { n }
}

// A number of 128 bits.
#[derive(Clone, Copy)]
pub struct Pair {
    pub low: u64,
    pub high: u64,
}

// The pair shifted down by s bits.
pub fn shr_pair(low: u64, high: u64, s: usize) -> Pair
    requires { s < 128 }
    ensures { result.high * 2 ^ 64 + result.low ≡ (high * 2 ^ 64 + low) / 2 ^ s }
{
    if s == 0 {
        return Pair { low, high };
    }
    if 64 <= s {
        return Pair {
            low: high >> (s - 64),
            high: 0,
        };
    }
    Pair {
        low: (low >> s) | (high << (64 - s)),
        high: high >> s,
    }
}

// The n low bits of x.
pub fn low_bits(x: u64, n: usize) -> u64
    requires { n ≤ 64 }
    ensures { result ≡ x % 2 ^ n }
{
    if n == 64 {
        return x;
    }
    x % (1 << n)
}
