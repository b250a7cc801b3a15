// The widths: a base takes two bits, a flag one.
ghost use Rattle.std.specs.Prelude.{◌≡◌, ℕ, ◌/◌, ◌≤◌};
ghost use Rattle.codes.specs.Codes.{IsWidth, code, complement};
ghost use Rattle.codes.specs.Widths.{width_1, width_2, narrow_1, narrow_2};
ghost use Rattle.codes.specs.Words.{flip};

use crate::inner::flips;
use crate::inner::flips::{flip_bases, flip_flags};
use crate::letters::{char_is_ambiguous, pack_char_lossy};

pub trait Width {
    ghost BITS: { ℕ };

    const BITS: usize;

    ghost divides: { IsWidth BITS };

    // What a letter is.
    fn code_of(letter: u8) -> u8
        ensures { result ≡ code BITS letter };

    // All characters of x in reverse, bases complemented. The body is for a type that has none of its own; its width is known when it is compiled.
    fn flip_word(x: u64) -> u64
        ensures { result ≡ flip BITS (complement BITS) (64 / BITS) x }
    {
        if Self::BITS == 2 {
            flips::flip_bases(x)
        } else if Self::BITS == 1 {
            flips::flip_flags(x)
        } else {
            flips::flip_fours(x)
        }
    }
}

// A width of two bits at most, for callers that have to know it.
pub trait Reverses: Width {
    ghost narrow: { Self.BITS ≤ 2 };
}

#[derive(Clone, Copy)]
pub struct Bases;

impl Width for Bases {
    ghost BITS = { 2 };

    ghost divides = { width_2 };

    const BITS: usize = 2;

    fn code_of(letter: u8) -> u8 {
        pack_char_lossy(letter)
    }

    fn flip_word(x: u64) -> u64 {
        flip_bases(x)
    }
}

impl Reverses for Bases {
    ghost narrow = { narrow_2 };
}

#[derive(Clone, Copy)]
pub struct Flags;

impl Width for Flags {
    ghost BITS = { 1 };

    ghost divides = { width_1 };

    const BITS: usize = 1;

    fn code_of(letter: u8) -> u8 {
        char_is_ambiguous(letter)
    }

    fn flip_word(x: u64) -> u64 {
        flip_flags(x)
    }
}

impl Reverses for Flags {
    ghost narrow = { narrow_1 };
}
