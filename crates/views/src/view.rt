// A view, and a view that a call hands back.
ghost use Rattle.std.specs.Prelude.{◌≡◌};
ghost use Rattle.codes.specs.Answers.{says, says_by};
ghost use Rattle.fields.specs.Fields.{got};
ghost use Rattle.fields.specs.Spans.{span_of};
ghost use Rattle.views.specs.Answers.{part_says};
ghost use Rattle.views.specs.Views.{lent, empty, made, sliced, normalised};

use codes::refusals::Refusal;
use codes::units::Chars;
use codes::widths::Width;
use fields::inner::parts::{
    Numbers, get_at, made_numbers, normal_numbers, normal_part, slice_numbers,
};

// Bytes, offset and length held together. The bytes reach 48 beyond the characters. Calls above this crate and below it take the three
// side by side: of a function over a struct with a borrow the checker reads no contract that `Decided`, `Refused` and `Called` could speak of.
#[derive(Clone, Copy)]
pub struct View<'a> {
    pub bytes: &'a [u8],
    pub offset: Chars,
    pub len: Chars,
}

// A view, or beside a refusal the empty one at the front of what was lent: no `Result`, as a refusal hands a part back too.
#[derive(Clone, Copy)]
pub struct Part<'a> {
    pub view: View<'a>,
    pub outcome: Result<(), Refusal>,
}

impl<'a> View<'a> {
    // A view, checked.
    pub fn new<W: Width>(bytes: &'a [u8], offset: Chars, len: Chars) -> Part<'a>
        ensures { part_says result ≡ made W.BITS (span_of bytes.entry) offset.0 len.0 }
    {
        let numbers = made_numbers::<W>(bytes, offset, len);
        Part::of(numbers, bytes, bytes)
    }

    // Character i.
    pub fn get<W: Width>(self, i: Chars) -> Result<u8, Refusal>
        ensures { says result ≡ got W.BITS self.entry.bytes.now self.entry.offset.0 self.entry.len.0 i.0 }
    {
        get_at::<W>(self.bytes, self.offset, self.len, i)
    }

    // The characters from `start` up to `end`, in the same bytes.
    pub fn slice<W: Width>(self, start: Chars, end: Chars) -> Part<'a>
        ensures { part_says result ≡ sliced W.BITS (span_of self.entry.bytes) self.entry.offset.0 self.entry.len.0 start.0 end.0 }
    {
        let numbers = slice_numbers::<W>(self.bytes, self.offset, self.len, start, end);
        Part::of(numbers, self.bytes, self.bytes)
    }

    // The same characters in the fewest bytes.
    pub fn normalise<W: Width>(self) -> Part<'a>
        ensures { part_says result ≡ normalised W.BITS (span_of self.entry.bytes) self.entry.offset.0 self.entry.len.0 }
    {
        let numbers = normal_numbers::<W>(self.bytes, self.offset, self.len);
        let held = normal_part::<W>(self.bytes, self.offset, self.len);
        Part::of(numbers, held, self.bytes)
    }
}

impl<'a> Part<'a> {
    // The numbers in `held`, or beside a refusal the empty part at the front of `all`.
    pub fn of(numbers: Result<Numbers, Refusal>, held: &'a [u8], all: &'a [u8]) -> Self
        ensures { part_says result ≡
            says_by (λ n. lent (span_of held.entry) n.offset.0 n.len.0) (empty (span_of all.entry)) numbers }
    {
        match numbers {
            Ok(Numbers { offset, len }) => Part {
                view: View {
                    bytes: held,
                    offset,
                    len,
                },
                outcome: Ok(()),
            },
            Err(refusal) => Part {
                view: View {
                    bytes: &all[0..0],
                    offset: Chars::new(0),
                    len: Chars::new(0),
                },
                outcome: Err(refusal),
            },
        }
    }
}
