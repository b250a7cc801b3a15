// What the calls that write .2bit files answer.
use codes::refusals::Refusal;

// A file that is written: where the next entry of its index goes and where the index ends, where the next record goes, and how many
// sequences are left.
#[derive(Clone, Copy)]
pub struct Writing {
    pub entry: usize,
    pub stop: usize,
    pub place: usize,
    pub left: usize,
}

// The next state; beside a refusal, the state that was given.
#[derive(Clone, Copy)]
pub struct Stepped {
    pub state: Writing,
    pub outcome: Result<(), Refusal>,
}
