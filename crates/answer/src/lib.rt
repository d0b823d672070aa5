// Answers in the documents' numbers: the struct that crosses to C, and how what a call comes to becomes it: a value, or a case of refusal with its number and
// place, which each crate's own error has.
#![tactic(auto)]

ghost use Rattle.std.specs.Prelude.{◌≡◌, ℕ};
ghost use Rattle.answer.specs.Told.{told, said_of};

// Number 0 if a call was accepted, else the documents' number of the refusal, with its place; and the value that an accepted call gives.
#[repr(C)]
#[derive(Clone, Copy)]
pub struct Answer {
    pub number: u32,
    pub place: u32,
    pub value: u32,
}

// What an accepted call gives, as the number that is told of it.
pub trait Value: Copy {
    ghost value_of: { Self → ℕ };

    fn value(self) -> u32
        ensures { result ≡ value_of self };
}

// A case of refusal: its number in the documents, and where.
pub trait Refusal: Copy {
    ghost number_of: { Self → ℕ };

    ghost place_of: { Self → ℕ };

    fn number(&self) -> u32
        ensures { result ≡ number_of self.now };

    fn place(&self) -> u32
        ensures { result ≡ place_of self.now };
}

impl Value for () {
    ghost value_of = { λ _. 0 };

    fn value(self) -> u32 {
        0
    }
}

impl Value for u32 {
    ghost value_of = { λ n. n };

    fn value(self) -> u32 {
        self
    }
}

impl<V: Value, R: Refusal> From<Result<V, R>> for Answer {
    ghost from_gives = { λ outcome answer. told answer ≡ said_of V.value_of R.number_of R.place_of outcome };

    fn from(outcome: Result<V, R>) -> Answer {
        match outcome {
            Ok(value) => Answer {
                number: 0,
                place: 0,
                value: value.value(),
            },
            Err(refusal) => Answer {
                number: refusal.number(),
                place: refusal.place(),
                value: 0,
            },
        }
    }
}
