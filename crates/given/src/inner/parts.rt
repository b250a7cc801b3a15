// A part of a lent buffer, as it is handed back.
ghost use Rattle.std.specs.Prelude.{◌≡◌};
ghost use Rattle.given.specs.Parts.{part_numbers};

// Its first byte and the count of its bytes within the buffer, then the offset and the length.
#[derive(Clone, Copy)]
pub struct Part {
    pub first: usize,
    pub size: usize,
    pub offset: usize,
    pub len: usize,
}

impl Part {
    // The numbers behind their pointers.
    pub fn give(self, at: &mut usize, size: &mut usize, offset: &mut usize, len: &mut usize)
        ensures { (at.new, size.new, offset.new, len.new) ≡ part_numbers self }
    {
        *at = self.first;
        *size = self.size;
        *offset = self.offset;
        *len = self.len;
    }
}

// Beside a refusal.
pub const NO_PART: Part = Part {
    first: 0,
    size: 0,
    offset: 0,
    len: 0,
};
