// The sizes that a caller needs before a call, and the version.
ghost use Rattle.std.specs.Prelude.{◌≡◌, ◌+◌, ◌-◌, ◌*◌, ◌^◌, min, length};
ghost use Rattle.codes.specs.Codes.{up, trailing};
ghost use Rattle.counts.specs.Blocks.{blocks};
ghost use Rattle.forms.specs.Forms.{form_size};
ghost use Rattle.forms.specs.Numbers.{spelt};

use codes::units::{Chars, TRAILING};
use codes::widths::{Bases, Flags};
use counts::inner::blocks::blocks_of;
use forms::inner::numbers::spelt_size;

// The bytes of a store of n bases.
#[unsafe(no_mangle)]
pub extern "C" fn tsiv_bases_room(n: usize) -> usize
    ensures { result ≡ up 2 n + trailing }
{
    Chars::new(n).bytes_as::<Bases>().count() + TRAILING
}

// The bytes of a store of n flags.
#[unsafe(no_mangle)]
pub extern "C" fn tsiv_flags_room(n: usize) -> usize
    ensures { result ≡ up 1 n + trailing }
{
    Chars::new(n).bytes_as::<Flags>().count() + TRAILING
}

// The entries beside a store of n flags.
#[unsafe(no_mangle)]
pub extern "C" fn tsiv_counts_room(n: usize) -> usize
    ensures { result ≡ blocks n }
{
    blocks_of(n)
}

// The bytes that n itself takes in a form.
fn spelt_room(n: usize) -> usize
    ensures { result ≡ length (spelt 5 n) }
{
    if n < 0x8_0000_0000 {
        return spelt_size(n as u64);
    }
    5
}

// The bytes of a form of n characters.
#[unsafe(no_mangle)]
pub extern "C" fn tsiv_form_room(n: usize) -> usize
    ensures { result ≡ form_size n }
{
    let bases = Chars::new(n).bytes_as::<Bases>().count();
    let flags = Chars::new(n).bytes_as::<Flags>().count();
    1 + spelt_room(n) + (bases + flags)
}

// The entries of so many steps, at most those that a size can count.
#[unsafe(no_mangle)]
pub extern "C" fn tsiv_lanes_room(steps: usize) -> usize
    ensures { result ≡ min (8 * steps) (2 ^ 64 - 1) }
{
    if steps < 0x2000_0000_0000_0000 {
        return 8 * steps;
    }
    0xffff_ffff_ffff_ffff
}

// The version, 4.0.0: sixteen bits, then eight, then eight.
#[unsafe(no_mangle)]
pub extern "C" fn tsiv_version() -> u32
    ensures { result ≡ 262144 }
{
    0x0004_0000
}
