// Why calls are refused: the reasons that documents 01 and 02 number, and the detail that goes with one.
#![tactic(auto)]

ghost use Rattle.std.specs.Prelude.{◌≡◌};

// The number of each is that of document 01, or of the request of document 02 that brought it.
#[derive(Clone, Copy, Debug, PartialEq, Eq)]
pub enum Reason {
    NotSound = 1,
    ActivitiesOutOfRange = 2,
    ThresholdOutOfRange = 3,
    Malformed = 4,
    NumberFalls = 5,
    Undeclared = 6,
    TooLong = 7,
    Full = 8,
    NoSpace = 9,
    ListTooShort = 10,
    NoTrace = 11,
    TooMuchInput = 12,
    NoConstraint = 13,
    TooMany = 14,
    ConfidenceOutOfRange = 15,
}

impl Reason {
    ghost use Rattle.answers.specs.Answers.{reason_number};

    pub fn number(self) -> u8
        ensures { result ≡ reason_number self }
    {
        self as u8
    }

    // Refused for this reason, at a place or with a count.
    pub fn with(self, detail: usize) -> Refusal
        ensures { result ≡ record { reason = self; detail = detail } }
    {
        Refusal {
            reason: self,
            detail,
        }
    }
}

// A refusal, with its detail: 0 unless documents 01 and 02 name another. They fix the 0, so it is no Option.
#[derive(Clone, Copy, Debug, PartialEq, Eq)]
pub struct Refusal {
    pub reason: Reason,
    pub detail: usize,
}

impl From<Reason> for Refusal {
    ghost from_gives = { λ reason refusal. refusal ≡ record { reason = reason; detail = 0 } };

    fn from(reason: Reason) -> Refusal {
        reason.with(0)
    }
}
