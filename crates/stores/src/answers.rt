// What the calls on a store answer.
use codes::refusals::Refusal;
use codes::units::Chars;

// The start and the end of what was pushed.
#[derive(Clone, Copy)]
pub struct Pushed {
    pub start: Chars,
    pub end: Chars,
}

// Why a call left a store as it was, and the store's length, which stays.
#[derive(Clone, Copy)]
pub struct Unchanged {
    pub refusal: Refusal,
    pub len: Chars,
}
