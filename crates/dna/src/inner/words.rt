// 32 bases in a word: from our order to the file's and back, and marked by 32 flags.
ghost use Rattle.std.specs.Prelude.{map, ◌≡◌, ◌/◌, ◌%◌, ◌*◌, ◌^◌, ◌<◌, eqb};
ghost use Rattle.codes.specs.Codes.{pick, tab};
ghost use Rattle.codes.specs.Words.{word, chars_of, flip};
ghost use Rattle.dna.specs.Dna.{exchanged};

// 32 flags, each at the low bit of a pair.
fn spread(f: u64) -> u64
    requires { f < 2 ^ 32 }
    ensures { result ≡ word 2 (chars_of 1 32 f) }
{
    let a = (f | (f << 16)) & 0x0000_ffff_0000_ffff;
    let b = (a | (a << 8)) & 0x00ff_00ff_00ff_00ff;
    let c = (b | (b << 4)) & 0x0f0f_0f0f_0f0f_0f0f;
    let d = (c | (c << 2)) & 0x3333_3333_3333_3333;
    (d | (d << 1)) & 0x5555_5555_5555_5555
}

// Code 3 under each set flag.
pub(crate) fn three_under(x: u64, f: u64) -> u64
    requires { f < 2 ^ 32 }
    ensures { result ≡ word 2 (tab 32 (λ i. pick (eqb (f / 2 ^ i % 2) 0) (x / 2 ^ (2 * i) % 4) 3)) }
{
    if f == 0 {
        return x;
    }
    let low = spread(f);
    x | low | (low << 1)
}

// Code 2, which is T, under each set flag.
pub(crate) fn t_under(x: u64, f: u64) -> u64
    requires { f < 2 ^ 32 }
    ensures { result ≡ word 2 (tab 32 (λ i. pick (eqb (f / 2 ^ i % 2) 0) (x / 2 ^ (2 * i) % 4) 2)) }
{
    if f == 0 {
        return x;
    }
    let low = spread(f);
    (x | low | (low << 1)) ^ low
}

// The four bases of each byte in reverse, A and T exchanged.
pub(crate) fn exchange(x: u64) -> u64
    ensures { result ≡ word 8 (map (flip 2 exchanged 4) (chars_of 8 8 x)) }
{
    let a = ((x >> 4) & 0x0f0f_0f0f_0f0f_0f0f) | ((x & 0x0f0f_0f0f_0f0f_0f0f) << 4);
    let b = ((a >> 2) & 0x3333_3333_3333_3333) | ((a & 0x3333_3333_3333_3333) << 2);
    b ^ ((b & 0x5555_5555_5555_5555) << 1) ^ 0xaaaa_aaaa_aaaa_aaaa
}
