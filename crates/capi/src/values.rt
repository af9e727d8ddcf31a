// The numbers in which what a call hands back is told to C.
ghost use Rattle.std.specs.Prelude.{◌≡◌, [], ◌∷◌, List, ℕ};
ghost use Rattle.capi.specs.Numbers.{four};

use discovery::Found;

// As many numbers as the answer of any call has.
pub const ANSWER: usize = 4;

pub trait Values {
    // Document 01's values of it.
    ghost values: { Self → List ℕ };

    fn numbers(self) -> [u64; ANSWER]
        ensures { result ≡ four (values self) };
}

impl Values for () {
    ghost values = { λ done. [] };

    fn numbers(self) -> [u64; ANSWER] {
        [0; ANSWER]
    }
}

impl Values for usize {
    ghost values = { λ count. count ∷ [] };

    fn numbers(self) -> [u64; ANSWER] {
        [self as u64, 0, 0, 0]
    }
}

impl Values for Found {
    ghost values = { λ found. found.constraints ∷ found.replayed ∷ found.traces ∷ found.events_read ∷ [] };

    fn numbers(self) -> [u64; ANSWER] {
        [
            u64::from(self.constraints),
            u64::from(self.replayed),
            u64::from(self.traces),
            self.events_read,
        ]
    }
}
