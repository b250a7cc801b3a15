// Why a call refuses. Document 01's table gives each its number.
ghost use Rattle.std.specs.Prelude.{◌≡◌};
ghost use Rattle.codes.specs.Refusals.{number, number_of};

#[derive(Clone, Copy, Debug, PartialEq, Eq, Hash)]
pub enum Refusal {
    TooLong = 1,
    BadStore = 2,
    BadView = 3,
    BadRange = 4,
    BadWord = 5,
    BadLetter = 6,
    BadForm = 7,
    BadStream = 8,
    NoRoom = 9,
    Partial = 10,
}

impl Refusal {
    pub fn number(self) -> u8
        ensures { result ≡ number self }
    {
        self as u8
    }
}

// The number of what a call that gives no other number answers.
pub fn number_of(outcome: Result<(), Refusal>) -> u8
    ensures { result ≡ number_of outcome }
{
    match outcome {
        Ok(()) => 0,
        Err(refusal) => refusal.number(),
    }
}
