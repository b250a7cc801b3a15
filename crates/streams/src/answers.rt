// What the calls on streams answer.
use codes::units::Chars;

#[derive(Clone, Copy)]
pub struct Shape {
    pub lane: Chars,
    pub steps: usize,
    pub padding: Chars,
}

// The steps written, and the padding.
#[derive(Clone, Copy)]
pub struct Filled {
    pub steps: usize,
    pub padding: Chars,
}
