// The running state of flag windows, and what a step answers.
// Eight lane counts and the step.
#[derive(Clone, Copy)]
pub struct Windows {
    pub counts: [u32; 8],
    pub step: usize,
}

// A step's answers, all 32 bits set or 0, and the state for the next.
#[derive(Clone, Copy)]
pub struct Ran {
    pub answers: [u32; 8],
    pub state: Windows,
}
