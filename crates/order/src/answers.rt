// What comparing answers.
use codes::units::Chars;
use std::cmp::Ordering;

// The order of two views, and the count of their equal leading characters.
#[derive(Clone, Copy)]
pub struct Compared {
    pub order: Ordering,
    pub common: Chars,
}
