// Character counts and byte counts: two units, and C8 the only way between them.
ghost use Rattle.std.specs.Prelude.{◌≡◌};
ghost use Rattle.codes.specs.Codes.{up};

use crate::inner::counts::eighth;
use crate::widths::Width;

// The bytes that are lent behind the last character of a view or a store.
pub const TRAILING: usize = 48;

// A count of characters, or the place of one.
#[derive(Clone, Copy)]
pub struct Chars(usize);

// A count of bytes, or the place of one.
#[derive(Clone, Copy)]
pub struct Bytes(usize);

impl Chars {
    pub fn new(count: usize) -> Self
        ensures { result.0 ≡ count }
    {
        Chars(count)
    }

    pub fn count(self) -> usize
        ensures { result ≡ self.0 }
    {
        self.0
    }

    // The bytes that so many characters take.
    pub fn bytes_as<W: Width>(self) -> Bytes
        ensures { result.0 ≡ up W.BITS self.0 }
    {
        let c = eighth::<W>();
        let k = self.0;
        Bytes(k / c + (k % c + (c - 1)) / c)
    }
}

impl Bytes {
    pub fn new(count: usize) -> Self
        ensures { result.0 ≡ count }
    {
        Bytes(count)
    }

    pub fn count(self) -> usize
        ensures { result ≡ self.0 }
    {
        self.0
    }
}
