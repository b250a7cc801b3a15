// Numbers in groups of seven bits, low group first, the top bit set on all but the last byte, in shortest form.
ghost use Rattle.std.specs.Prelude.{◌++◌, ◌≡◌, ◌≤◌, ◌<◌, ◌^◌, length, drop};
ghost use Rattle.forms.specs.Answers.{spelled_says};
ghost use Rattle.forms.specs.Numbers.{spelt, spelling, led, Fits};

use codes::inner::bits::wide;

// A number that was read, and how many bytes it took.
#[derive(Clone, Copy)]
pub struct Spelled {
    pub value: u64,
    pub size: usize,
}

// The bytes that n takes.
pub fn spelt_size(n: u64) -> usize
    requires { n < 2 ^ 35 }
    ensures { result ≡ length (spelt 5 n) }
{
    if n < 0x80 {
        return 1;
    }
    if n < 0x4000 {
        return 2;
    }
    if n < 0x20_0000 {
        return 3;
    }
    if n < 0x1000_0000 {
        return 4;
    }
    5
}

// Writes n.
pub(crate) fn spell(n: u64, out: &mut [u8])
    requires { (n < 2 ^ 35) × (length (spelt 5 n) ≤ length out.old) }
    ensures { out.new ≡ spelt 5 n ++ drop (length (spelt 5 n)) out.old }
{
    let mut rest = n;
    let mut i: usize = 0;
    // By what is left of the number: no range to go over.
    while 0x80 <= rest {
        out[i] = (rest % 0x80 + 0x80) as u8;
        rest = rest / 0x80;
        i += 1;
    }
    out[i] = rest as u8;
}

// The number that a byte leads, where `rest` stands behind it.
fn lead(byte: u8, rest: Option<Spelled>) -> Option<Spelled>
    requires { Fits 8 (spelled_says rest) }
    ensures { spelled_says result ≡ led byte (spelled_says rest) }
{
    let b = wide(byte);
    if b < 0x80 {
        return Some(Spelled { value: b, size: 1 });
    }
    let behind = rest?;
    if behind.value == 0 {
        return None;
    }
    Some(Spelled {
        value: behind.value * 0x80 + (b - 0x80),
        size: behind.size + 1,
    })
}

// The number that the bytes begin with: from the fifth byte back to the first, each leads what stands behind it.
pub(crate) fn read_number(bytes: &[u8]) -> Option<Spelled>
    ensures { spelled_says result ≡ spelling 5 bytes.now }
{
    let mut read = None;
    for i in (0..5).rev() {
        if i < bytes.len() {
            read = lead(bytes[i], read);
        }
    }
    read
}
